// Whether each byte of the contributions is below its modulus: an offset's own, in a record that of its wire.
ghost use Rattle.std.specs.Prelude.{◌≡◌, ◌+◌, ◌*◌, ◌≤◌, length, get_or};
ghost use Rattle.lists.specs.Blocks.{blocks, runs};
ghost use Rattle.circuit.specs.Wires.{modulus_at};
ghost use Rattle.circuit.specs.Held.{wires_in, Room};
ghost use Rattle.counts.specs.Counts.{mark, record_keys_of, record_keys_in};
ghost use Rattle.counts.specs.Moduli.{used, moduli_used};
ghost use Rattle.scheme.specs.Contribution.{contribution_size, contribution_moduli};
ghost use Rattle.scheme.specs.Bytes.{contributions_checked};
ghost use Rattle.contribution.specs.Large.{first_large};

use super::places::{contribution_size, first_record, record_size};
use super::run::{Run, first_in_runs};
use checks::{Answer, Refusal, named};
use circuit::Circuit;
use counts::marks;
use lists::nth_piece;

// In the offsets of one party.
pub fn first_in_offsets(circuit: Circuit, k: usize, bytes: &[u8]) -> usize
    requires room { Room circuit × (k ≤ 128) }
    requires bytes_len { length bytes.now ≡ k * moduli_used (wires_in circuit) }
    ensures { result ≡ first_large bytes.now (λ i. get_or (runs 256 (λ p. k * mark (used (wires_in circuit) p)) (λ p. p)) i 0) }
{
    let marks = marks(circuit);
    first_in_runs(
        256,
        |p| Run {
            bytes: k * usize::from(marks[p]),
            modulus: p as u8,
        },
        bytes,
    )
}

// In the records of one party.
fn first_in_records(circuit: Circuit, k: usize, bytes: &[u8]) -> usize
    requires room { Room circuit × (k ≤ 128) }
    requires bytes_len { length bytes.now ≡ (k + 1) * record_keys_in (wires_in circuit) }
    ensures { result ≡ first_large bytes.now (λ i. get_or (runs (length (wires_in circuit)) (λ w. (k + 1) * record_keys_of (wires_in circuit) w) (modulus_at (wires_in circuit))) i 0) }
{
    first_in_runs(
        circuit.made,
        |w| {
            let wire = circuit.wires[w];
            Run {
                bytes: record_size(wire, k),
                modulus: wire.modulus,
            }
        },
        bytes,
    )
}

// In the contribution of one party.
fn first_in_contribution(circuit: Circuit, k: usize, bytes: &[u8]) -> usize
    requires room { Room circuit × (k ≤ 128) }
    requires bytes_len { length bytes.now ≡ contribution_size k (wires_in circuit) }
    ensures { result ≡ first_large bytes.now (λ i. get_or (contribution_moduli k (wires_in circuit)) i 0) }
{
    let split = first_record(circuit, k);
    let found = first_in_offsets(circuit, k, &bytes[..split]);
    if found < split {
        return found;
    }
    let rest = first_in_records(circuit, k, &bytes[split..]);
    split + rest
}

// In all contributions.
fn first_in_contributions(circuit: Circuit, n: usize, k: usize, contributions: &[u8]) -> usize
    requires room { Room circuit × ((n ≤ 8) × (k ≤ 128)) }
    requires contributions_len { length contributions.now ≡ n * contribution_size k (wires_in circuit) }
    ensures { result ≡ first_large contributions.now (λ i. get_or (blocks n (λ party. contribution_moduli k (wires_in circuit))) i 0) }
{
    let size = contribution_size(circuit, k);
    for party in 0..n {
        let own = nth_piece(contributions, size, party);
        let found = first_in_contribution(circuit, k, own);
        if found < size {
            return party * size + found;
        }
    }
    contributions.len()
}

// 16: the contributions of n parties, one after another.
pub fn contributions_checked(circuit: Circuit, n: usize, k: usize, contributions: &[u8]) -> Answer
    requires room { Room circuit × ((n ≤ 8) × (k ≤ 128)) }
    requires contributions_len { length contributions.now ≡ n * contribution_size k (wires_in circuit) }
    ensures { result ≡ contributions_checked n k (wires_in circuit) contributions.now }
{
    let found = first_in_contributions(circuit, n, k, contributions);
    named(contributions.len(), found, Refusal::ContributionTooLarge)
}
