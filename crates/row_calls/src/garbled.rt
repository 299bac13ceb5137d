// Garbling as a call: rows, input masks and a sheet of output masks for each party from the contributions of all, and the named account of the row meter charged.
ghost use Rattle.std.specs.Prelude.{◌≡◌, ◌≤◌};
ghost use Rattle.checks.specs.Answer.{number_in, place_in};
ghost use Rattle.circuit.specs.Held.{wires_in, outputs_in, named_in, Held};
ghost use Rattle.calls.specs.Garble.{garble_bytes, garble_named, garble_lengths, garble_lent, garble_owned, garble_asked, GarbleCall};
ghost use Rattle.row_calls.specs.Garbled.{Draws};

use checks::Answer;
use circuit::{Circuit, read};
use contribution::{contribution_size, contributions_checked, offsets_checked};
use meter::{account_checked, charge, meter_checked};
use session::{AskedSession, Session, lengths_checked, partakers_checked, session_checked};

// How many bytes are lent for the rows, the input masks and the sheets of output masks.
#[derive(Clone, Copy)]
struct Lengths {
    rows: usize,
    inputs: usize,
    outputs: usize,
}

// The bytes, where their number is right: the contributions, then their offsets.
fn draws_checked(circuit: Circuit, n: usize, k: usize, contributions: &[u8]) -> Answer
    requires { Draws circuit n k contributions.now }
    ensures { result ≡ garble_bytes n k (wires_in circuit) contributions.now }
{
    contributions_checked(circuit, n, k, contributions)?;
    offsets_checked(circuit, n, k, contributions)
}

// The account, and then the bytes.
fn named_checked(circuit: Circuit, n: usize, k: usize, contributions: &[u8], account: u32) -> Answer
    requires { Draws circuit n k contributions.now }
    ensures { result ≡ garble_named n k (wires_in circuit) contributions.now account }
{
    account_checked(account)?;
    draws_checked(circuit, n, k, contributions)
}

// The lengths of what is lent.
fn buffer_lengths_checked(
    circuit: Circuit,
    n: u32,
    k: u32,
    contributions: &[u8],
    lent: Lengths,
) -> Answer
    requires { Held circuit × ((n ≤ 8) × (k ≤ 128)) }
    ensures { result ≡ garble_lengths n k (wires_in circuit) (outputs_in circuit) contributions.now lent.rows lent.inputs lent.outputs }
{
    let parties = n as usize;
    let long = k as usize;
    let width = parties * long;
    let rows = counts::rows(circuit) as usize;
    lengths_checked(
        &[contributions.len(), lent.rows, lent.inputs, lent.outputs],
        &[
            parties * contribution_size(circuit, long),
            rows * width,
            circuit.inputs,
            parties * circuit.given,
        ],
    )
}

// Those, and where they are right the account and the bytes.
fn buffers_checked(
    circuit: Circuit,
    n: u32,
    k: u32,
    contributions: &[u8],
    lent: Lengths,
    account: u32,
) -> Answer
    requires { Held circuit × ((n ≤ 8) × (k ≤ 128)) }
    ensures { result ≡ garble_lent n k (wires_in circuit) (outputs_in circuit) contributions.now lent.rows lent.inputs lent.outputs account }
{
    buffer_lengths_checked(circuit, n, k, contributions, lent)?;
    named_checked(circuit, n as usize, k as usize, contributions, account)
}

// Everyone takes part whom the circuit needs, and then what is lent.
fn garble_owned(
    circuit: Circuit,
    n: u32,
    k: u32,
    contributions: &[u8],
    lent: Lengths,
    account: u32,
) -> Answer
    requires { Held circuit × ((n ≤ 8) × (k ≤ 128)) }
    ensures { result ≡ garble_owned n k (wires_in circuit) (outputs_in circuit) contributions.now (named_in circuit) lent.rows lent.inputs lent.outputs account }
{
    partakers_checked(circuit, n)?;
    buffers_checked(circuit, n, k, contributions, lent, account)
}

// The session, and where it is in range the rest.
fn garble_asked(
    circuit: Circuit,
    n: u32,
    k: u32,
    contributions: &[u8],
    lent: Lengths,
    account: u32,
) -> Answer
    requires { Held circuit }
    ensures { result ≡ garble_asked n k (wires_in circuit) (outputs_in circuit) contributions.now (named_in circuit) lent.rows lent.inputs lent.outputs account }
{
    session_checked(n, k)?;
    garble_owned(circuit, n, k, contributions, lent, account)
}

// Garbles a circuit. Refused or not, the contract gives the answer, every byte of the three buffers lent, and every total of the meter.
pub fn garble(
    file: &[u8],
    asked: AskedSession,
    contributions: &[u8],
    rows: &mut [u8],
    inputs: &mut [u8],
    outputs: &mut [u8],
    account: u32,
    meter: &mut [u32; 8],
) -> Answer
    ensures { GarbleCall file.now asked.n asked.k asked.round contributions.now rows.old inputs.old outputs.old
        (record { totals = meter.old; account = account })
        (number_in result) (place_in result) rows.new inputs.new outputs.new meter.new }
{
    let circuit = read(file)?;
    let lent = Lengths {
        rows: rows.len(),
        inputs: inputs.len(),
        outputs: outputs.len(),
    };
    garble_asked(circuit, asked.n, asked.k, contributions, lent, account)?;
    let count = counts::rows(circuit);
    meter_checked(meter, account, count)?;
    let session = Session::from(asked);
    let size = contribution_size(circuit, session.k);
    garbling::garble(
        circuit,
        file,
        session,
        size,
        contributions,
        rows,
        inputs,
        outputs,
    );
    charge(meter, account, count);
    Ok(())
}
