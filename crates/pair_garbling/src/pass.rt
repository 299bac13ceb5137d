// The pass over the wires, and the masks of the outputs.
ghost use Rattle.std.specs.Prelude.{◌≡◌, ◌+◌, ◌*◌, ◌≤◌, length, get_or};
ghost use Rattle.lists.specs.Blocks.{tab};
ghost use Rattle.circuit.specs.Held.{wires_in, outputs_in};
ghost use Rattle.pair.specs.Count.{pair_rows_in};
ghost use Rattle.pair_garbling.specs.Source.{Sourced, Put, key_here, rows_here};
ghost use Rattle.pair_garbling.specs.Ready.{Drawn, ZeroKeys, Gives, rows_garbled, masks_garbled};

use super::source::Source;
use super::turn::Turn;
use super::wires::put_gate;
use circuit::Circuit;
use counts::moduli_used;
use lists::scratch;
use pair_checks::rows_size;
use session::Session;
use words::Gate;

// The rows of a wire, and its zero key in its place among those of all wires. It is made in a local, since lower wires' keys are read from where it is put.
fn put_wire(gate: Gate, turn: Turn, source: Source, keys: &mut [u8], rows: &mut [u8])
    requires sourced { Sourced turn source.file.now source.draw.now source.ranks.now source.moduli.now keys.old gate rows.old }
    requires k_in_bounds { turn.place + turn.k ≤ length keys.old }
    ensures { Put turn.k turn.place (key_here turn source.entry.file.now source.entry.draw.now source.entry.ranks.now source.entry.moduli.now keys.old gate)
        keys.old keys.new
        × (rows.new ≡ rows_here turn source.entry.file.now source.entry.draw.now source.entry.ranks.now source.entry.moduli.now keys.old gate) }
{
    let mut room = scratch::<128>();
    let key = &mut room[..turn.k];
    put_gate(gate, turn, source, &*keys, &mut *key, rows);
    lists::put_at(keys, turn.place, &*key);
}

// The zero keys of all wires and all rows, wire after wire.
fn put_wires(
    circuit: Circuit,
    file: &[u8],
    session: Session,
    draw: &[u8],
    keys: &mut [u8],
    rows: &mut [u8],
)
    requires drawn { Drawn file.now circuit session.k draw.now × (length keys.old ≡ circuit.made * session.k) }
    requires rows_len { length rows.old ≡ pair_rows_in (wires_in circuit) * session.k }
    ensures { ZeroKeys file.now circuit session.k session.round draw.now keys.new
        × (rows.new ≡ rows_garbled session.k session.round circuit file.now draw.now) }
{
    let moduli = counts::moduli(circuit);
    let ranks = contribution::ranks(circuit);
    let source = Source {
        file,
        draw,
        ranks: &ranks,
        moduli: &moduli,
    };
    let k = session.k;
    let first = k * moduli_used(circuit) as usize;
    let mut place = 0;
    let mut from = 0;
    for w in 0..circuit.made {
        let wire = circuit.wires[w];
        let to = from + rows_size(wire, &moduli, k);
        let turn = Turn {
            k,
            round: session.round,
            wire: w as u32,
            modulus: wire.modulus,
            at: first + place,
            place,
        };
        put_wire(wire.gate, turn, source, &mut *keys, &mut rows[from..to]);
        place += k;
        from = to;
    }
}

// Component 0 of the zero keys of the outputs' wires, in the order of the outputs.
fn put_masks(circuit: Circuit, k: usize, keys: &[u8], outputs: &mut [u8])
    requires { Gives circuit k keys.now (length outputs.old) }
    ensures { outputs.new ≡ tab (length (outputs_in circuit)) (λ i. get_or keys.now (get_or (outputs_in circuit) i 0 * k) 0) }
{
    for i in 0..circuit.given {
        outputs[i] = keys[usize::from(circuit.outputs[i]) * k];
    }
}

// Garbling for two, once every check has passed: the rows, and a mask for each output. The zero keys are at most those of 1,024 wires, of 128 bytes each.
pub fn garble(
    circuit: Circuit,
    file: &[u8],
    session: Session,
    draw: &[u8],
    rows: &mut [u8],
    outputs: &mut [u8],
)
    requires drawn { Drawn file.now circuit session.k draw.now }
    requires rows_len { (length rows.old ≡ pair_rows_in (wires_in circuit) * session.k) × (length outputs.old ≡ length (outputs_in circuit)) }
    ensures { (rows.new ≡ rows_garbled session.k session.round circuit file.now draw.now)
        × (outputs.new ≡ masks_garbled session.k session.round circuit file.now draw.now) }
{
    let mut work = scratch::<131072>();
    let keys = &mut work[..circuit.made * session.k];
    put_wires(circuit, file, session, draw, &mut *keys, rows);
    put_masks(circuit, session.k, &*keys, outputs);
}
