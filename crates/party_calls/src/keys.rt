// A party's input keys, as a call: on each input its zero key plus the external value times its offset.
ghost use Rattle.std.specs.Prelude.{◌≡◌, ◌+◌, ◌≤◌, ◌<◌, length};
ghost use Rattle.lists.specs.Blocks.{part};
ghost use Rattle.residue.specs.Vector.{key_v};
ghost use Rattle.checks.specs.Answer.{number_in, place_in};
ghost use Rattle.circuit.specs.Held.{wires_in, Held};
ghost use Rattle.calls.specs.InputKeys.{input_keys_lent, input_keys_made, InputKeysCall};
ghost use Rattle.party_calls.specs.Keying.{KeysFit};

use checks::Answer;
use circuit::{Circuit, read};
use contribution::{contribution_size, contributions_checked, offsets_checked, ranks};
use counts::moduli_used;
use lists::piece;
use residue::key_of;
use session::{lengths_checked, partakers_checked, party_checked, session_checked, values_checked};

// The lengths of what is lent, and where they are right the bytes: external values, then the contribution, then its offsets.
fn lent_checked(
    circuit: Circuit,
    k: usize,
    contribution: &[u8],
    externals: &[u8],
    bytes: usize,
) -> Answer
    requires { Held circuit × (k ≤ 128) }
    ensures { result ≡ input_keys_lent k (wires_in circuit) contribution.now externals.now bytes }
{
    let inputs = circuit.inputs;
    lengths_checked(
        &[contribution.len(), externals.len(), bytes],
        &[contribution_size(circuit, k), inputs, inputs * k],
    )?;
    values_checked(circuit, externals)?;
    contributions_checked(circuit, 1, k, contribution)?;
    offsets_checked(circuit, 1, k, contribution)
}

// One key: the zero key stands in the contribution from one place on, the offset from another.
fn put_key(p: u8, e: u8, contribution: &[u8], zero: usize, offset: usize, k: usize, out: &mut [u8])
    requires p_nonzero { (0 < p) × (length out.old ≡ k) }
    requires k_in_bounds { (zero + k ≤ length contribution.now) × (offset + k ≤ length contribution.now) }
    ensures { out.new ≡ key_v p (part contribution.now zero k) e (part contribution.now offset k) }
{
    let start = piece(contribution, zero, k);
    let step = piece(contribution, offset, k);
    key_of(p, start, e, step, out);
}

// The keys of all inputs. Inputs come first and have one key each in their records, so these records are of one size.
pub fn put_keys(circuit: Circuit, k: usize, contribution: &[u8], externals: &[u8], keys: &mut [u8])
    requires { KeysFit circuit k contribution.now externals.now (length keys.old) }
    ensures { keys.new ≡ input_keys_made k (wires_in circuit) contribution.now externals.now }
{
    let places = ranks(circuit);
    let records = k * moduli_used(circuit) as usize;
    let mut at = 0;
    for w in 0..circuit.inputs {
        let p = circuit.wires[w].modulus;
        let offset = k * usize::from(places[usize::from(p)]);
        let zero = records + (k + 1) * w;
        let to = at + k;
        put_key(
            p,
            externals[w],
            contribution,
            zero,
            offset,
            k,
            &mut keys[at..to],
        );
        at = to;
    }
}

// A key of the party for each input, in wire order. Refused or not, the contract gives the answer and every byte of `keys`.
pub fn input_keys(
    file: &[u8],
    n: u32,
    k: u32,
    party: u32,
    contribution: &[u8],
    externals: &[u8],
    keys: &mut [u8],
) -> Answer
    ensures { InputKeysCall file.now n k party contribution.now externals.now keys.old (number_in result) (place_in result) keys.new }
{
    let circuit = read(file)?;
    session_checked(n, k)?;
    party_checked(n, party)?;
    partakers_checked(circuit, n)?;
    lent_checked(circuit, k as usize, contribution, externals, keys.len())?;
    put_keys(circuit, k as usize, contribution, externals, keys);
    Ok(())
}
