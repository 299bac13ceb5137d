// All wires, in order.
ghost use Rattle.std.specs.Prelude.{◌≡◌, ◌*◌, ◌≤◌, length, get_or};
ghost use Rattle.circuit.specs.Held.{wires_in};
ghost use Rattle.pads.specs.Pad.{shake_pad};
ghost use Rattle.pair.specs.Opening.{pair_wire_keys, pair_wire_externals};
ghost use Rattle.pair_opening.specs.Given.{Given};
ghost use Rattle.pair_opening.specs.Ready.{Seated, Ready};
ghost use Rattle.pair_opening.specs.Step.{over_by, open_at, Room, Stored};

use super::turn::Turn;
use super::wire::open_wire;
use circuit::Circuit;
use counts::{moduli, modulus_of};
use lists::{piece, put_at, scratch};
use pair_checks::rows_size;
use session::Session;
use words::Gate;

// The modulus of the wire that a projection is of, given the moduli of all wires.
fn over(gate: Gate, moduli: &[u8]) -> u8
    ensures { result ≡ over_by gate (λ a. get_or moduli.now a 0) }
{
    if let Gate::Project(g) = gate {
        modulus_of(moduli, g.a)
    } else {
        0
    }
}

// The wire at hand is opened in a local, since lower wires are read in the buffer, and then put in; byte 0 of its key is its external value.
fn put_wire(
    turn: Turn,
    gate: Gate,
    keys: &[u8],
    rows: &[u8],
    wkeys: &mut [u8],
    wexternals: &mut [u8],
)
    requires seated { Seated turn × Room turn wkeys.old wexternals.old }
    requires ready { Ready turn keys.now rows.now wkeys.old gate }
    ensures { Stored turn (open_at turn keys.now rows.now wkeys.old gate)
        wkeys.old wexternals.old wkeys.new wexternals.new }
{
    let mut room = scratch::<128>();
    let out = &mut room[..turn.k];
    open_wire(turn, gate, keys, rows, &*wkeys, &mut *out);
    let w = turn.wire as usize;
    put_at(wkeys, w * turn.k, &*out);
    wexternals[w] = out[0];
}

// Writes the key and the external value of every wire. Of the session only the key length and the round count.
pub fn open_wires(
    circuit: Circuit,
    session: Session,
    keys: &[u8],
    rows: &[u8],
    wkeys: &mut [u8],
    wexternals: &mut [u8],
)
    requires given { Given circuit session.k keys.now rows.now }
    requires wkeys_len { (length wkeys.old ≡ circuit.made * session.k) × (length wexternals.old ≡ circuit.made) }
    ensures { (wkeys.new ≡ pair_wire_keys (shake_pad session.round) session.k (wires_in circuit) keys.now rows.now)
        × (wexternals.new ≡ pair_wire_externals (shake_pad session.round) session.k (wires_in circuit) keys.now rows.now) }
{
    let k = session.k;
    let table = moduli(circuit);
    let mut from = 0;
    for w in 0..circuit.made {
        let wire = circuit.wires[w];
        let size = rows_size(wire, &table, k);
        let own = piece(rows, from, size);
        let turn = Turn {
            k,
            round: session.round,
            wire: w as u32,
            modulus: wire.modulus,
            over: over(wire.gate, &table),
        };
        put_wire(turn, wire.gate, keys, own, &mut *wkeys, &mut *wexternals);
        from += size;
    }
}
