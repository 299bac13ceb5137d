// The input keys, as a call: on each input its zero key plus the value times its offset.
ghost use Rattle.std.specs.Prelude.{◌≡◌, ◌+◌, ◌≤◌, ◌<◌, length};
ghost use Rattle.lists.specs.Blocks.{part};
ghost use Rattle.residue.specs.Vector.{key_v};
ghost use Rattle.checks.specs.Answer.{number_in, place_in};
ghost use Rattle.circuit.specs.Held.{wires_in, Held};
ghost use Rattle.pair.specs.InputKeys.{pair_keys_bytes, pair_keys_lent, pair_keys_asked, pair_keys_made, PairInputKeysCall};
ghost use Rattle.pair_calls.specs.Lent.{Ranged, KeysLent, KeysFit, keys_owned};

use super::drawn::drawn_checked;
use super::reading::read_for_two;
use checks::Answer;
use circuit::Circuit;
use contribution::{offset_place, ranks};
use counts::moduli_used;
use lists::piece;
use pair_checks::draw_size;
use residue::key_of;
use session::{lengths_checked, owners_checked, session_checked, values_checked};

// The bytes, where their number is right: the values, then the draw.
fn contents_checked(circuit: Circuit, k: usize, draw: &[u8], values: &[u8]) -> Answer
    requires { KeysLent circuit k draw.now values.now }
    ensures { result ≡ pair_keys_bytes k (wires_in circuit) draw.now values.now }
{
    values_checked(circuit, values)?;
    drawn_checked(circuit, k, draw)
}

// The lengths of what is lent, and where they are right the bytes.
fn key_lengths_checked(
    circuit: Circuit,
    k: usize,
    draw: &[u8],
    values: &[u8],
    bytes: usize,
) -> Answer
    requires { Ranged circuit k }
    ensures { result ≡ pair_keys_lent k (wires_in circuit) draw.now values.now bytes }
{
    let inputs = circuit.inputs;
    lengths_checked(
        &[draw.len(), values.len(), bytes],
        &[draw_size(circuit, k), inputs, inputs * k],
    )?;
    contents_checked(circuit, k, draw, values)
}

// The owners, and then what is lent.
fn keys_owned(circuit: Circuit, k: usize, draw: &[u8], values: &[u8], bytes: usize) -> Answer
    requires { Ranged circuit k }
    ensures { result ≡ keys_owned k (wires_in circuit) draw.now values.now bytes }
{
    owners_checked(circuit, 2)?;
    key_lengths_checked(circuit, k, draw, values, bytes)
}

// The session, of two parties, and where the key length is in range the rest.
fn keys_asked(circuit: Circuit, k: u32, draw: &[u8], values: &[u8], bytes: usize) -> Answer
    requires { Held circuit }
    ensures { result ≡ pair_keys_asked k (wires_in circuit) draw.now values.now bytes }
{
    session_checked(2, k)?;
    keys_owned(circuit, k as usize, draw, values, bytes)
}

// One key: the zero key stands in the draw from one place on, the offset from another.
fn put_key(p: u8, v: u8, draw: &[u8], zero: usize, offset: usize, k: usize, out: &mut [u8])
    requires p_nonzero { (0 < p) × (length out.old ≡ k) }
    requires k_in_bounds { (zero + k ≤ length draw.now) × (offset + k ≤ length draw.now) }
    ensures { out.new ≡ key_v p (part draw.now zero k) v (part draw.now offset k) }
{
    let start = piece(draw, zero, k);
    let step = piece(draw, offset, k);
    key_of(p, start, v, step, out);
}

// The keys of all inputs. Their zero keys stand behind all offsets, in wire order.
fn put_keys(circuit: Circuit, k: usize, draw: &[u8], values: &[u8], keys: &mut [u8])
    requires { KeysFit circuit k draw.now values.now (length keys.old) }
    ensures { keys.new ≡ pair_keys_made k (wires_in circuit) draw.now values.now }
{
    let places = ranks(circuit);
    let used = moduli_used(circuit) as usize;
    let mut at = 0;
    for w in 0..circuit.inputs {
        let p = circuit.wires[w].modulus;
        let offset = offset_place(&places, p, k);
        let zero = k * (used + w);
        let to = at + k;
        put_key(p, values[w], draw, zero, offset, k, &mut keys[at..to]);
        at = to;
    }
}

// A key for each input, in wire order. Refused or not, the contract gives the answer and every byte of `keys`.
pub fn pair_input_keys(file: &[u8], k: u32, draw: &[u8], values: &[u8], keys: &mut [u8]) -> Answer
    ensures { PairInputKeysCall file.now k draw.now values.now keys.old
        (number_in result) (place_in result) keys.new }
{
    let circuit = read_for_two(file)?;
    keys_asked(circuit, k, draw, values, keys.len())?;
    put_keys(circuit, k as usize, draw, values, keys);
    Ok(())
}
