// Opening as a call: keys and external values of all wires at one party.
ghost use Rattle.std.specs.Prelude.{◌≡◌, not, ◌+◌, ◌*◌, ◌≤◌, ◌<◌, length};
ghost use Rattle.lists.specs.Blocks.{nth_piece};
ghost use Rattle.lists.specs.First.{first};
ghost use Rattle.search.specs.Search.{same};
ghost use Rattle.checks.specs.Answer.{number_in, place_in};
ghost use Rattle.circuit.specs.Held.{wires_in, named_in, Held};
ghost use Rattle.calls.specs.Open.{open_bytes, open_lent, open_party, open_asked, OpenCall};
ghost use Rattle.opening.specs.Given.{Given};
ghost use Rattle.row_calls.specs.Opened.{OpenSizes, Compared, first_wrong, GatesOpened, InputsOpened};

use checks::{Answer, Refusal, named};
use circuit::{Circuit, read};
use contribution::{
    contribution_size, contributions_checked, keys_checked, offsets_checked, rows_checked,
};
use lists::{nth_piece, scratch};
use opening::open_wires;
use party_calls::put_keys;
use search::same_bytes;
use session::{
    AskedSeat, Seat, lengths_checked, partakers_checked, party_checked, session_checked,
    values_checked,
};

// The bytes, where their number is right: external values, the contribution and its offsets, keys, rows.
fn bytes_checked(
    circuit: Circuit,
    n: usize,
    k: usize,
    contribution: &[u8],
    externals: &[u8],
    keys: &[u8],
    rows: &[u8],
) -> Answer
    requires { OpenSizes circuit n k contribution.now externals.now keys.now rows.now }
    ensures { result ≡ open_bytes n k (wires_in circuit) contribution.now externals.now keys.now rows.now }
{
    values_checked(circuit, externals)?;
    contributions_checked(circuit, 1, k, contribution)?;
    offsets_checked(circuit, 1, k, contribution)?;
    keys_checked(circuit, n, k, keys)?;
    rows_checked(circuit, n, k, rows)
}

// The lengths of what is lent, and where they are right the bytes.
fn open_lent(
    circuit: Circuit,
    n: u32,
    k: u32,
    contribution: &[u8],
    externals: &[u8],
    keys: &[u8],
    rows: &[u8],
    wkeys: usize,
    wexternals: usize,
) -> Answer
    requires { Held circuit × ((n ≤ 8) × (k ≤ 128)) }
    ensures { result ≡ open_lent n k (wires_in circuit) contribution.now externals.now keys.now rows.now wkeys wexternals }
{
    let parties = n as usize;
    let long = k as usize;
    let width = parties * long;
    let inputs = circuit.inputs;
    let made = circuit.made;
    let count = counts::rows(circuit) as usize;
    lengths_checked(
        &[
            contribution.len(),
            externals.len(),
            keys.len(),
            rows.len(),
            wkeys,
            wexternals,
        ],
        &[
            contribution_size(circuit, long),
            inputs,
            inputs * width,
            count * width,
            made * width,
            made,
        ],
    )?;
    bytes_checked(circuit, parties, long, contribution, externals, keys, rows)
}

// The party asked for and all that the circuit needs take part, and then what is lent.
fn open_party(
    circuit: Circuit,
    asked: AskedSeat,
    contribution: &[u8],
    externals: &[u8],
    keys: &[u8],
    rows: &[u8],
    wkeys: usize,
    wexternals: usize,
) -> Answer
    requires { Held circuit × ((asked.n ≤ 8) × (asked.k ≤ 128)) }
    ensures { result ≡ open_party asked.n asked.k (wires_in circuit) contribution.now externals.now keys.now rows.now
        (named_in circuit) asked.party wkeys wexternals }
{
    party_checked(asked.n, asked.party)?;
    partakers_checked(circuit, asked.n)?;
    open_lent(
        circuit,
        asked.n,
        asked.k,
        contribution,
        externals,
        keys,
        rows,
        wkeys,
        wexternals,
    )
}

// The session, and where it is in range the rest.
fn open_asked(
    circuit: Circuit,
    asked: AskedSeat,
    contribution: &[u8],
    externals: &[u8],
    keys: &[u8],
    rows: &[u8],
    wkeys: usize,
    wexternals: usize,
) -> Answer
    requires { Held circuit }
    ensures { result ≡ open_asked asked.n asked.k (wires_in circuit) contribution.now externals.now keys.now rows.now
        (named_in circuit) asked.party wkeys wexternals }
{
    session_checked(asked.n, asked.k)?;
    open_party(
        circuit,
        asked,
        contribution,
        externals,
        keys,
        rows,
        wkeys,
        wexternals,
    )
}

// The lowest input on which the party's key is not its own of `own`; their number where there is none.
fn first_other(n: usize, k: usize, party: usize, inputs: usize, keys: &[u8], own: &[u8]) -> usize
    requires { Compared n k party inputs keys.now own.now }
    ensures { result ≡ first inputs (λ w. not (same (nth_piece keys.now k (w * n + party)) (nth_piece own.now k w))) }
{
    for w in 0..inputs {
        let lent = nth_piece(keys, k, w * n + party);
        let made = nth_piece(own, k, w);
        if !same_bytes(lent, made) {
            return w;
        }
    }
    inputs
}

// The same against the keys that the party makes itself, put into `own`.
fn first_unlike(
    circuit: Circuit,
    seat: Seat,
    contribution: &[u8],
    externals: &[u8],
    keys: &[u8],
    rows: &[u8],
    own: &mut [u8],
) -> usize
    requires given { Given circuit seat.n seat.k seat.party contribution.now externals.now keys.now rows.now }
    requires own_len { length own.old ≡ circuit.inputs * seat.k }
    ensures { result ≡ first_wrong seat.n seat.k seat.party (wires_in circuit) contribution.now externals.now keys.now }
{
    let inputs = circuit.inputs;
    let k = seat.k;
    put_keys(circuit, k, contribution, externals, &mut *own);
    first_other(seat.n, k, seat.party, inputs, keys, &*own)
}

// The same, with memory for the keys of the most inputs there are.
fn first_wrong(
    circuit: Circuit,
    seat: Seat,
    contribution: &[u8],
    externals: &[u8],
    keys: &[u8],
    rows: &[u8],
) -> usize
    requires { Given circuit seat.n seat.k seat.party contribution.now externals.now keys.now rows.now }
    ensures { result ≡ first_wrong seat.n seat.k seat.party (wires_in circuit) contribution.now externals.now keys.now }
{
    let mut work = scratch::<131072>();
    let bytes = circuit.inputs * seat.k;
    first_unlike(
        circuit,
        seat,
        contribution,
        externals,
        keys,
        rows,
        &mut work[..bytes],
    )
}

// The gates: where no multiplier fits both buffers are zero.
fn open_gates(
    circuit: Circuit,
    seat: Seat,
    contribution: &[u8],
    externals: &[u8],
    keys: &[u8],
    rows: &[u8],
    wkeys: &mut [u8],
    wexternals: &mut [u8],
) -> Answer
    requires given { Given circuit seat.n seat.k seat.party contribution.now externals.now keys.now rows.now }
    requires wkeys_len { (length wkeys.old ≡ circuit.made * (seat.n * seat.k)) × (length wexternals.old ≡ circuit.made) }
    ensures { GatesOpened seat.n seat.k seat.party seat.round (wires_in circuit) contribution.now externals.now keys.now rows.now
        wkeys.old wexternals.old result wkeys.new wexternals.new }
{
    let made = circuit.made;
    let found = open_wires(
        circuit,
        seat,
        contribution,
        externals,
        keys,
        rows,
        wkeys,
        wexternals,
    );
    named(made, found, Refusal::NoMultiplier)
}

// The party's own keys, and where they are right the gates.
fn open_inputs(
    circuit: Circuit,
    seat: Seat,
    contribution: &[u8],
    externals: &[u8],
    keys: &[u8],
    rows: &[u8],
    wkeys: &mut [u8],
    wexternals: &mut [u8],
) -> Answer
    requires given { Given circuit seat.n seat.k seat.party contribution.now externals.now keys.now rows.now }
    requires wkeys_len { (length wkeys.old ≡ circuit.made * (seat.n * seat.k)) × (length wexternals.old ≡ circuit.made) }
    ensures { InputsOpened seat.n seat.k seat.party seat.round (wires_in circuit) contribution.now externals.now keys.now rows.now
        wkeys.old wexternals.old result wkeys.new wexternals.new }
{
    let found = first_wrong(circuit, seat, contribution, externals, keys, rows);
    named(circuit.inputs, found, Refusal::WrongInputKey)?;
    open_gates(
        circuit,
        seat,
        contribution,
        externals,
        keys,
        rows,
        wkeys,
        wexternals,
    )
}

// Opens garbled rows at a party. Refused or not, the contract gives the answer and every byte of the two buffers lent.
pub fn open_rows(
    file: &[u8],
    asked: AskedSeat,
    contribution: &[u8],
    externals: &[u8],
    keys: &[u8],
    rows: &[u8],
    wkeys: &mut [u8],
    wexternals: &mut [u8],
) -> Answer
    ensures { OpenCall file.now asked.n asked.k asked.party asked.round contribution.now externals.now keys.now rows.now
        wkeys.old wexternals.old (number_in result) (place_in result) wkeys.new wexternals.new }
{
    let circuit = read(file)?;
    open_asked(
        circuit,
        asked,
        contribution,
        externals,
        keys,
        rows,
        wkeys.len(),
        wexternals.len(),
    )?;
    open_inputs(
        circuit,
        asked.into(),
        contribution,
        externals,
        keys,
        rows,
        wkeys,
        wexternals,
    )
}
