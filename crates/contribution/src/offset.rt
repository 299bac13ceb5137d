// Whether some party's offset of a modulus in use is zero.
ghost use Rattle.std.specs.Prelude.{◌≡◌, ◌&&◌, ◌+◌, ◌*◌, ◌≤◌, eqb, length};
ghost use Rattle.lists.specs.Blocks.{part, nth_piece};
ghost use Rattle.lists.specs.First.{first};
ghost use Rattle.circuit.specs.Held.{wires_in, Room};
ghost use Rattle.counts.specs.Moduli.{some_below};
ghost use Rattle.scheme.specs.Contribution.{contribution_size};
ghost use Rattle.scheme.specs.Bytes.{all_zero, zero_offset, offsets_checked};

use super::places::{contribution_size, ranks};
use checks::{Answer, Refusal, named};
use circuit::Circuit;
use counts::marks;

fn all_zero(bytes: &[u8]) -> bool
    ensures { result ≡ all_zero bytes.now }
{
    bytes.iter().all(|x| *x == 0)
}

// Whether the k bytes from place `at` on are zero in one of the n parts of `size` bytes.
fn some_zero(n: usize, size: usize, at: usize, k: usize, contributions: &[u8]) -> bool
    requires { (length contributions.now ≡ n * size) × (at + k ≤ size) }
    ensures { result ≡ some_below n (λ party. all_zero (part (nth_piece contributions.now size party) at k)) }
{
    for party in 0..n {
        let own = lists::nth_piece(contributions, size, party);
        if all_zero(lists::piece(own, at, k)) {
            return true;
        }
    }
    false
}

// The same, of an offset that has a mark where its modulus is in use.
fn zero_marked(marked: u8, n: usize, size: usize, at: usize, k: usize, contributions: &[u8]) -> bool
    requires { (length contributions.now ≡ n * size) × (marked ≡ 1 → at + k ≤ size) }
    ensures { result ≡ (eqb marked 1 && some_below n (λ party. all_zero (part (nth_piece contributions.now size party) at k))) }
{
    marked == 1 && some_zero(n, size, at, k, contributions)
}

// The lowest modulus in use of which some party's offset is zero; 256 where there is none.
fn first_zero(circuit: Circuit, n: usize, k: usize, contributions: &[u8]) -> usize
    requires room { Room circuit × ((n ≤ 8) × (k ≤ 128)) }
    requires contributions_len { length contributions.now ≡ n * contribution_size k (wires_in circuit) }
    ensures { result ≡ first 256 (zero_offset n k (wires_in circuit) contributions.now) }
{
    let marks = marks(circuit);
    let ranks = ranks(circuit);
    let size = contribution_size(circuit, k);
    for p in 0..256 {
        let at = k * usize::from(ranks[p]);
        if zero_marked(marks[p], n, size, at, k, contributions) {
            return p;
        }
    }
    256
}

// 17: the lowest modulus, over all parties.
pub fn offsets_checked(circuit: Circuit, n: usize, k: usize, contributions: &[u8]) -> Answer
    requires room { Room circuit × ((n ≤ 8) × (k ≤ 128)) }
    requires contributions_len { length contributions.now ≡ n * contribution_size k (wires_in circuit) }
    ensures { result ≡ offsets_checked n k (wires_in circuit) contributions.now }
{
    let found = first_zero(circuit, n, k, contributions);
    named(256, found, Refusal::ZeroOffset)
}
