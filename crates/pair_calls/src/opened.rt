// Opening as a call: the key and the external value of every wire.
ghost use Rattle.std.specs.Prelude.{◌≡◌};
ghost use Rattle.checks.specs.Answer.{number_in, place_in};
ghost use Rattle.circuit.specs.Held.{wires_in, Held};
ghost use Rattle.pair.specs.Bytes.{pair_bytes_checked};
ghost use Rattle.pair.specs.Open.{pair_open_lengths, pair_open_lent, pair_open_asked, PairOpenCall};
ghost use Rattle.pair_calls.specs.Lent.{Ranged, OpenLent, open_owned};

use super::asked::AskedRound;
use super::reading::read_for_two;
use checks::Answer;
use circuit::Circuit;
use contribution::keys_checked;
use pair_checks::rows_checked;
use pair_opening::open_wires;
use session::{Session, lengths_checked, owners_checked, session_checked};

// How many bytes are lent for the wires' keys and external values.
#[derive(Clone, Copy)]
struct Lengths {
    keys: usize,
    externals: usize,
}

// The bytes, where their number is right: keys, then rows.
fn bytes_checked(circuit: Circuit, k: usize, keys: &[u8], rows: &[u8]) -> Answer
    requires { OpenLent circuit k keys.now rows.now }
    ensures { result ≡ pair_bytes_checked k (wires_in circuit) keys.now rows.now }
{
    keys_checked(circuit, 1, k, keys)?;
    rows_checked(circuit, k, rows)
}

// The lengths of what is lent.
fn open_lengths(circuit: Circuit, k: usize, keys: &[u8], rows: &[u8], lent: Lengths) -> Answer
    requires { Ranged circuit k }
    ensures { result ≡ pair_open_lengths k (wires_in circuit) keys.now rows.now lent.keys lent.externals }
{
    let made = circuit.made;
    let count = pair_checks::rows(circuit) as usize;
    lengths_checked(
        &[keys.len(), rows.len(), lent.keys, lent.externals],
        &[circuit.inputs * k, count * k, made * k, made],
    )
}

// Those, and where they are right the bytes.
fn open_lent(circuit: Circuit, k: usize, keys: &[u8], rows: &[u8], lent: Lengths) -> Answer
    requires { Ranged circuit k }
    ensures { result ≡ pair_open_lent k (wires_in circuit) keys.now rows.now lent.keys lent.externals }
{
    open_lengths(circuit, k, keys, rows, lent)?;
    bytes_checked(circuit, k, keys, rows)
}

// The owners, and then what is lent.
fn open_owned(circuit: Circuit, k: usize, keys: &[u8], rows: &[u8], lent: Lengths) -> Answer
    requires { Ranged circuit k }
    ensures { result ≡ open_owned k (wires_in circuit) keys.now rows.now lent.keys lent.externals }
{
    owners_checked(circuit, 2)?;
    open_lent(circuit, k, keys, rows, lent)
}

// The session, of two parties, and where the key length is in range the rest.
fn open_asked(circuit: Circuit, k: u32, keys: &[u8], rows: &[u8], lent: Lengths) -> Answer
    requires { Held circuit }
    ensures { result ≡ pair_open_asked k (wires_in circuit) keys.now rows.now lent.keys lent.externals }
{
    session_checked(2, k)?;
    open_owned(circuit, k as usize, keys, rows, lent)
}

// Opens garbled rows, from a key for each input. Refused or not, the contract gives the answer and every byte of the two buffers lent.
pub fn pair_open(
    file: &[u8],
    asked: AskedRound,
    keys: &[u8],
    rows: &[u8],
    wkeys: &mut [u8],
    wexternals: &mut [u8],
) -> Answer
    ensures { PairOpenCall file.now asked.k asked.round keys.now rows.now wkeys.old wexternals.old
        (number_in result) (place_in result) wkeys.new wexternals.new }
{
    let circuit = read_for_two(file)?;
    let lent = Lengths {
        keys: wkeys.len(),
        externals: wexternals.len(),
    };
    open_asked(circuit, asked.k, keys, rows, lent)?;
    open_wires(circuit, asked.into(), keys, rows, wkeys, wexternals);
    Ok(())
}
