// 18, of the rows: whether each byte is below the receiving modulus.
ghost use Rattle.std.specs.Prelude.{◌≡◌, ◌*◌, ◌≤◌, length, get_or};
ghost use Rattle.lists.specs.Blocks.{runs};
ghost use Rattle.circuit.specs.Wires.{modulus_at};
ghost use Rattle.circuit.specs.Held.{wires_in, Room};
ghost use Rattle.scheme.specs.Bytes.{counted_rows_checked};
ghost use Rattle.contribution.specs.Large.{first_large};
ghost use Rattle.pair.specs.Count.{pair_rows_of, pair_rows_in};

use super::count::rows_size;
use checks::{Answer, Refusal, named};
use circuit::Circuit;
use contribution::{Run, first_in_runs};
use counts::moduli;

// The lowest index of a byte that is too large in the rows of all wires, of `width` bytes each; the number of bytes where there is none.
fn first_in_rows(circuit: Circuit, width: usize, rows: &[u8]) -> usize
    requires room { Room circuit × (width ≤ 128) }
    requires rows_len { length rows.now ≡ pair_rows_in (wires_in circuit) * width }
    ensures { result ≡ first_large rows.now (λ i. get_or (runs (length (wires_in circuit)) (λ w. pair_rows_of (wires_in circuit) w * width) (modulus_at (wires_in circuit))) i 0) }
{
    let table = moduli(circuit);
    first_in_runs(
        circuit.made,
        |w| {
            let wire = circuit.wires[w];
            Run {
                bytes: rows_size(wire, &table, width),
                modulus: wire.modulus,
            }
        },
        rows,
    )
}

pub fn rows_checked(circuit: Circuit, k: usize, rows: &[u8]) -> Answer
    requires room { Room circuit × (k ≤ 128) }
    requires rows_len { length rows.now ≡ pair_rows_in (wires_in circuit) * k }
    ensures { result ≡ counted_rows_checked 1 k (wires_in circuit) (pair_rows_of (wires_in circuit)) rows.now }
{
    let found = first_in_rows(circuit, k, rows);
    named(rows.len(), found, Refusal::KeyOrRowTooLarge)
}
