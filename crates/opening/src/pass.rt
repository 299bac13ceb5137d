// All wires, in order.
ghost use Rattle.std.specs.Prelude.{◌≡◌, ◌*◌, length, get_or};
ghost use Rattle.circuit.specs.Held.{wires_in};
ghost use Rattle.session.specs.Sizes.{Vector};
ghost use Rattle.opening.specs.Given.{Given, OpensAll};
ghost use Rattle.opening.specs.Step.{over_by, open_at};
ghost use Rattle.opening.specs.Ready.{Seated, Ready};
ghost use Rattle.opening.specs.Swept.{Room, Stored, Swept};

use super::before::{Before, Lent};
use super::turn::Turn;
use circuit::Circuit;
use contribution::{first_record, offset_place, ranks, record_size};
use counts::{Recipe, moduli, modulus_of, recipe_of, row_bytes};
use lists::{piece, put_at, scratch};
use session::Seat;

// The modulus of the wire that a table is over, given the moduli of all wires.
fn over(how: Recipe, moduli: &[u8]) -> u8
    ensures { result ≡ over_by how (λ a. get_or moduli.now a 0) }
{
    if let Recipe::Table(g) = how {
        modulus_of(moduli, g.a)
    } else {
        0
    }
}

// The wire at hand is opened in `out`, since lower wires are read in the buffers, and then put in.
fn put_from(
    turn: Turn,
    how: Recipe,
    lent: Lent,
    out: &mut [u8],
    wkeys: &mut [u8],
    wexternals: &mut [u8],
) -> u8
    requires seated { Seated turn × (Vector turn.n turn.k out.old × Room turn wkeys.old wexternals.old) }
    requires ready { Ready turn lent.contribution.now lent.externals.now lent.keys.now lent.rows.now wkeys.old wexternals.old how }
    ensures { Stored turn (open_at turn lent.entry.contribution.now lent.entry.externals.now lent.entry.keys.now lent.entry.rows.now wkeys.old wexternals.old how)
        wkeys.old wexternals.old result wkeys.new wexternals.new }
{
    let before = Before {
        keys: &*wkeys,
        externals: &*wexternals,
    };
    let e = before.open_wire(turn, how, lent, &mut *out);
    let w = turn.wire as usize;
    put_at(wkeys, w * (turn.n * turn.k), &*out);
    wexternals[w] = e;
    e
}

// The same, with a local for the keys of one wire.
fn put_wire(turn: Turn, how: Recipe, lent: Lent, wkeys: &mut [u8], wexternals: &mut [u8]) -> u8
    requires seated { Seated turn × Room turn wkeys.old wexternals.old }
    requires ready { Ready turn lent.contribution.now lent.externals.now lent.keys.now lent.rows.now wkeys.old wexternals.old how }
    ensures { Stored turn (open_at turn lent.entry.contribution.now lent.entry.externals.now lent.entry.keys.now lent.entry.rows.now wkeys.old wexternals.old how)
        wkeys.old wexternals.old result wkeys.new wexternals.new }
{
    let m = turn.n * turn.k;
    let mut made = scratch::<1024>();
    put_from(turn, how, lent, &mut made[..m], wkeys, wexternals)
}

// Opens wire after wire, up to the first on which no multiplier fits.
fn pass(
    circuit: Circuit,
    seat: Seat,
    contribution: &[u8],
    externals: &[u8],
    keys: &[u8],
    rows: &[u8],
    wkeys: &mut [u8],
    wexternals: &mut [u8],
) -> usize
    requires given { Given circuit seat.n seat.k seat.party contribution.now externals.now keys.now rows.now }
    requires wkeys_len { (length wkeys.old ≡ circuit.made * (seat.n * seat.k)) × (length wexternals.old ≡ circuit.made) }
    ensures { Swept seat.n seat.k seat.party seat.round (wires_in circuit) contribution.now externals.now keys.now rows.now
        result wkeys.new wexternals.new }
{
    let n = seat.n;
    let k = seat.k;
    let table = moduli(circuit);
    let places = ranks(circuit);
    let mut zero = first_record(circuit, k);
    let mut from = 0;
    for (w, wire) in circuit.wires[..circuit.made].iter().enumerate() {
        let wire = *wire;
        let p = wire.modulus;
        let how = recipe_of(wire);
        let size = row_bytes(wire, &table, n * k);
        let own = piece(rows, from, size);
        let turn = Turn {
            n,
            k,
            party: seat.party,
            round: seat.round,
            wire: w as u32,
            modulus: p,
            over: over(how, &table),
            zero,
            offset: offset_place(&places, p, k),
        };
        let lent = Lent {
            contribution,
            externals,
            keys,
            rows: own,
        };
        let e = put_wire(turn, how, lent, &mut *wkeys, &mut *wexternals);
        if p <= e {
            return w;
        }
        zero += record_size(wire, k);
        from += size;
    }
    circuit.made
}

// The number of wires stands for none, as the definition `first` has it and `named` of checks reads it.
// Writes all parties' keys and the external value of every wire. Gives the first wire on which no multiplier fits, and then both buffers are all zero; else the number of wires.
pub fn open_wires(
    circuit: Circuit,
    seat: Seat,
    contribution: &[u8],
    externals: &[u8],
    keys: &[u8],
    rows: &[u8],
    wkeys: &mut [u8],
    wexternals: &mut [u8],
) -> usize
    requires given { Given circuit seat.n seat.k seat.party contribution.now externals.now keys.now rows.now }
    requires wkeys_len { (length wkeys.old ≡ circuit.made * (seat.n * seat.k)) × (length wexternals.old ≡ circuit.made) }
    ensures { OpensAll circuit seat.n seat.k seat.party seat.round contribution.now externals.now keys.now rows.now
        wkeys.old wexternals.old result wkeys.new wexternals.new }
{
    let made = circuit.made;
    let reached = pass(
        circuit,
        seat,
        contribution,
        externals,
        keys,
        rows,
        &mut *wkeys,
        &mut *wexternals,
    );
    if reached < made {
        wkeys.fill(0);
        wexternals.fill(0);
    }
    reached
}
