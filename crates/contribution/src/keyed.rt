// Whether each byte of the input keys and of the rows is below its modulus: the input's, and the receiving one.
ghost use Rattle.std.specs.Prelude.{◌≡◌, ◌*◌, ◌≤◌, length, get_or};
ghost use Rattle.lists.specs.Blocks.{runs};
ghost use Rattle.circuit.specs.Wires.{modulus_at, inputs_in};
ghost use Rattle.circuit.specs.Held.{wires_in, Held};
ghost use Rattle.counts.specs.Counts.{rows_of, rows_in};
ghost use Rattle.scheme.specs.Bytes.{keys_checked, rows_checked};
ghost use Rattle.contribution.specs.Large.{first_large};

use super::run::{Run, first_in_runs};
use checks::{Answer, Refusal, named};
use circuit::Circuit;
use counts::{moduli, row_count};

// In the keys of all inputs, of `width` bytes each.
pub fn first_in_keys(circuit: Circuit, width: usize, keys: &[u8]) -> usize
    requires held { Held circuit }
    requires keys_len { length keys.now ≡ inputs_in (wires_in circuit) * width }
    ensures { result ≡ first_large keys.now (λ i. get_or (runs (inputs_in (wires_in circuit)) (λ w. width) (modulus_at (wires_in circuit))) i 0) }
{
    first_in_runs(
        circuit.inputs,
        |w| Run {
            bytes: width,
            modulus: circuit.wires[w].modulus,
        },
        keys,
    )
}

// In the rows of all wires, of `width` bytes each.
fn first_in_rows(circuit: Circuit, width: usize, rows: &[u8]) -> usize
    requires held { Held circuit × (width ≤ 1024) }
    requires rows_len { length rows.now ≡ rows_in (wires_in circuit) * width }
    ensures { result ≡ first_large rows.now (λ i. get_or (runs (length (wires_in circuit)) (λ w. rows_of (wires_in circuit) w * width) (modulus_at (wires_in circuit))) i 0) }
{
    let table = moduli(circuit);
    first_in_runs(
        circuit.made,
        |w| {
            let wire = circuit.wires[w];
            Run {
                bytes: row_count(wire, &table) as usize * width,
                modulus: wire.modulus,
            }
        },
        rows,
    )
}

// 18, of the keys of all inputs, input by input, n of K bytes each.
pub fn keys_checked(circuit: Circuit, n: usize, k: usize, keys: &[u8]) -> Answer
    requires held { Held circuit × ((n ≤ 8) × (k ≤ 128)) }
    requires keys_len { length keys.now ≡ inputs_in (wires_in circuit) * (n * k) }
    ensures { result ≡ keys_checked n k (wires_in circuit) keys.now }
{
    let width = n * k;
    let found = first_in_keys(circuit, width, keys);
    named(keys.len(), found, Refusal::KeyOrRowTooLarge)
}

// 18, of the rows, wire by wire, n times K bytes each.
pub fn rows_checked(circuit: Circuit, n: usize, k: usize, rows: &[u8]) -> Answer
    requires held { Held circuit × ((n ≤ 8) × (k ≤ 128)) }
    requires rows_len { length rows.now ≡ rows_in (wires_in circuit) * (n * k) }
    ensures { result ≡ rows_checked n k (wires_in circuit) rows.now }
{
    let width = n * k;
    let found = first_in_rows(circuit, width, rows);
    named(rows.len(), found, Refusal::KeyOrRowTooLarge)
}
