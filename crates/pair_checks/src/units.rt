// 27: whether component 0 of each offset is 1.
ghost use Rattle.std.specs.Prelude.{◌≡◌, not, ◌&&◌, ◌≤◌, ◌<◌, eqb, length, get_or};
ghost use Rattle.circuit.specs.Held.{wires_in, Room};
ghost use Rattle.pair.specs.Draw.{draw_size};
ghost use Rattle.pair.specs.Bytes.{units_checked};

use checks::{Answer, Refusal};
use circuit::Circuit;
use contribution::ranks;
use counts::marks;

// Whether an offset that starts at a place and has a mark, since its modulus is in use, starts with another byte than 1.
fn marked_not_one(marked: u8, at: usize, draw: &[u8]) -> bool
    requires { marked ≡ 1 → at < length draw.now }
    ensures { result ≡ (eqb marked 1 && not (eqb (get_or draw.now at 0) 1)) }
{
    marked == 1 && draw[at] != 1
}

// The lowest modulus in use whose offset is not so is named.
pub fn units_checked(circuit: Circuit, k: usize, draw: &[u8]) -> Answer
    requires room { Room circuit × ((1 ≤ k) × (k ≤ 128)) }
    requires draw_len { length draw.now ≡ draw_size k (wires_in circuit) }
    ensures { result ≡ units_checked k (wires_in circuit) draw.now }
{
    let marks = marks(circuit);
    let ranks = ranks(circuit);
    for p in 0..256 {
        let at = k * usize::from(ranks[p]);
        if marked_not_one(marks[p], at, draw) {
            return Err(Refusal::OffsetNotOne.at(p));
        }
    }
    Ok(())
}
