// Garbling as a call: rows and output masks from what the garbler drew, and the named account of the row meter charged.
ghost use Rattle.std.specs.Prelude.{◌≡◌};
ghost use Rattle.checks.specs.Answer.{number_in, place_in};
ghost use Rattle.circuit.specs.Held.{wires_in, outputs_in, Held};
ghost use Rattle.pair.specs.Garble.{pair_garble_lengths, pair_garble_lent, pair_garble_asked, PairGarbleCall};
ghost use Rattle.pair_calls.specs.Lent.{Ranged, Drawn, garble_named, garble_owned};

use super::asked::AskedRound;
use super::drawn::drawn_checked;
use super::reading::read_for_two;
use checks::Answer;
use circuit::Circuit;
use meter::{account_checked, charge, meter_checked};
use pair_checks::draw_size;
use pair_garbling::garble;
use session::{Session, lengths_checked, owners_checked, session_checked};

// How many bytes are lent for the rows and the output masks.
#[derive(Clone, Copy)]
struct Lengths {
    rows: usize,
    outputs: usize,
}

// The account, and then the draw.
fn named_checked(circuit: Circuit, k: usize, draw: &[u8], account: u32) -> Answer
    requires { Drawn circuit k draw.now }
    ensures { result ≡ garble_named k (wires_in circuit) draw.now account }
{
    account_checked(account)?;
    drawn_checked(circuit, k, draw)
}

// The lengths of what is lent.
fn buffer_lengths_checked(circuit: Circuit, k: usize, draw: &[u8], lent: Lengths) -> Answer
    requires { Ranged circuit k }
    ensures { result ≡ pair_garble_lengths k (wires_in circuit) (outputs_in circuit) draw.now lent.rows lent.outputs }
{
    let rows = pair_checks::rows(circuit) as usize;
    lengths_checked(
        &[draw.len(), lent.rows, lent.outputs],
        &[draw_size(circuit, k), rows * k, circuit.given],
    )
}

// Those, and where they are right the account and the draw.
fn buffers_checked(circuit: Circuit, k: usize, draw: &[u8], lent: Lengths, account: u32) -> Answer
    requires { Ranged circuit k }
    ensures { result ≡ pair_garble_lent k (wires_in circuit) (outputs_in circuit) draw.now lent.rows lent.outputs account }
{
    buffer_lengths_checked(circuit, k, draw, lent)?;
    named_checked(circuit, k, draw, account)
}

// The owners, and then what is lent.
fn garble_owned(circuit: Circuit, k: usize, draw: &[u8], lent: Lengths, account: u32) -> Answer
    requires { Ranged circuit k }
    ensures { result ≡ garble_owned k (wires_in circuit) (outputs_in circuit) draw.now lent.rows lent.outputs account }
{
    owners_checked(circuit, 2)?;
    buffers_checked(circuit, k, draw, lent, account)
}

// The session, of two parties, and where the key length is in range the rest.
fn garble_asked(circuit: Circuit, k: u32, draw: &[u8], lent: Lengths, account: u32) -> Answer
    requires { Held circuit }
    ensures { result ≡ pair_garble_asked k (wires_in circuit) (outputs_in circuit) draw.now lent.rows lent.outputs account }
{
    session_checked(2, k)?;
    garble_owned(circuit, k as usize, draw, lent, account)
}

// Garbles a circuit. Refused or not, the contract gives the answer, every byte of the two buffers lent, and every total of the meter.
pub fn pair_garble(
    file: &[u8],
    asked: AskedRound,
    draw: &[u8],
    rows: &mut [u8],
    outputs: &mut [u8],
    account: u32,
    meter: &mut [u32; 8],
) -> Answer
    ensures { PairGarbleCall file.now asked.k asked.round draw.now rows.old outputs.old
        (record { totals = meter.old; account = account })
        (number_in result) (place_in result) rows.new outputs.new meter.new }
{
    let circuit = read_for_two(file)?;
    let lent = Lengths {
        rows: rows.len(),
        outputs: outputs.len(),
    };
    garble_asked(circuit, asked.k, draw, lent, account)?;
    let count = pair_checks::rows(circuit);
    meter_checked(meter, account, count)?;
    garble(circuit, file, asked.into(), draw, rows, outputs);
    charge(meter, account, count);
    Ok(())
}
