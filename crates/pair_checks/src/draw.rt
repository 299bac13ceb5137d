// What the garbler draws: its size, and whether each byte is below its modulus: an offset's own, in a zero key that of its input.
ghost use Rattle.std.specs.Prelude.{◌≡◌, ◌≤◌, length, get_or};
ghost use Rattle.circuit.specs.Held.{wires_in, Held};
ghost use Rattle.counts.specs.Counts.{Counts};
ghost use Rattle.contribution.specs.Large.{first_large};
ghost use Rattle.pair.specs.Draw.{draw_size, draw_moduli};
ghost use Rattle.pair.specs.Bytes.{draw_checked};

use checks::{Answer, Refusal, named};
use circuit::Circuit;
use contribution::{first_in_keys, first_in_offsets};
use counts::moduli_used;

// K bytes for each modulus in use, and for each input.
pub fn draw_size(circuit: Circuit, k: usize) -> usize
    requires { Held circuit × (k ≤ 128) }
    ensures { Counts 163840 (draw_size k (wires_in circuit)) result }
{
    k * (moduli_used(circuit) as usize + circuit.inputs)
}

// The lowest index of a byte that is too large; the number of bytes where there is none.
fn first_in_draw(circuit: Circuit, k: usize, draw: &[u8]) -> usize
    requires held { Held circuit × (k ≤ 128) }
    requires draw_len { length draw.now ≡ draw_size k (wires_in circuit) }
    ensures { result ≡ first_large draw.now (λ i. get_or (draw_moduli k (wires_in circuit)) i 0) }
{
    let split = k * moduli_used(circuit) as usize;
    let found = first_in_offsets(circuit, k, &draw[..split]);
    if found < split {
        return found;
    }
    let rest = first_in_keys(circuit, k, &draw[split..]);
    split + rest
}

// 16, of a draw.
pub fn draw_checked(circuit: Circuit, k: usize, draw: &[u8]) -> Answer
    requires held { Held circuit × (k ≤ 128) }
    requires draw_len { length draw.now ≡ draw_size k (wires_in circuit) }
    ensures { result ≡ draw_checked k (wires_in circuit) draw.now }
{
    let found = first_in_draw(circuit, k, draw);
    named(draw.len(), found, Refusal::ContributionTooLarge)
}
