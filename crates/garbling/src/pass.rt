// The rows of all gates, and the masks that garbling hands out.
ghost use Rattle.std.specs.Prelude.{◌≡◌, ◌*◌, length};
ghost use Rattle.circuit.specs.Wires.{inputs_in};
ghost use Rattle.circuit.specs.Held.{wires_in, outputs_in};
ghost use Rattle.counts.specs.Counts.{rows_in};
ghost use Rattle.scheme.specs.Rows.{input_masks};
ghost use Rattle.zero.specs.Ready.{Contributed, ZeroKeys, Masks, drawn_in};
ghost use Rattle.garbling.specs.Source.{rows_made};
ghost use Rattle.garbling.specs.Sheets.{sheets_made};

use super::handed::{put_input_masks, put_sheets};
use super::own::Sources;
use super::turn::Turn;
use circuit::Circuit;
use contribution::{first_record, record_size};
use counts::{recipe_of, record_count, row_bytes};
use lists::scratch;
use session::Session;
use zero::{Drawn, wire_masks, zero_keys};

// All rows, gate after gate.
pub fn put_rows(
    circuit: Circuit,
    file: &[u8],
    session: Session,
    size: usize,
    contributions: &[u8],
    keys: &[u8],
    masks: &[u8],
    rows: &mut [u8],
)
    requires contributed { Contributed file.now circuit session.n session.k size contributions.now }
    requires zero_keys { ZeroKeys circuit session.n session.k contributions.now keys.now × Masks circuit session.n session.k contributions.now masks.now }
    requires rows_len { length rows.old ≡ rows_in (wires_in circuit) * (session.n * session.k) }
    ensures { rows.new ≡ rows_made session circuit file.now contributions.now }
{
    let moduli = counts::moduli(circuit);
    let ranks = contribution::ranks(circuit);
    let sources = Sources {
        file,
        contributions,
        ranks: &ranks,
        moduli: &moduli,
        keys,
        masks,
    };
    let bytes = session.n * session.k;
    let mut at = first_record(circuit, session.k);
    let mut from = 0;
    for (w, wire) in circuit.wires[..circuit.made].iter().enumerate() {
        let wire = *wire;
        let to = from + row_bytes(wire, sources.moduli, bytes);
        let turn = Turn {
            n: session.n,
            k: session.k,
            round: session.round,
            wire: w as u32,
            modulus: wire.modulus,
            size,
            at,
            count: record_count(wire) as usize,
        };
        sources.gate_rows(turn, recipe_of(wire), &mut rows[from..to]);
        at += record_size(wire, session.k);
        from = to;
    }
}

// Garbling, once every check has passed: rows, a mask for each input, and for each party a sheet with the masks of the outputs that it may read.
pub fn garble(
    circuit: Circuit,
    file: &[u8],
    session: Session,
    size: usize,
    contributions: &[u8],
    rows: &mut [u8],
    inputs: &mut [u8],
    outputs: &mut [u8],
)
    requires contributed { Contributed file.now circuit session.n session.k size contributions.now }
    requires rows_len { (length rows.old ≡ rows_in (wires_in circuit) * (session.n * session.k))
        × ((length inputs.old ≡ inputs_in (wires_in circuit)) × (length outputs.old ≡ session.n * length (outputs_in circuit))) }
    ensures { (rows.new ≡ rows_made session circuit file.now contributions.now)
        × ((inputs.new ≡ input_masks (wires_in circuit) (drawn_in circuit session.n session.k contributions.now))
        × (outputs.new ≡ sheets_made session circuit contributions.now)) }
{
    let bytes = circuit.made * (session.n * session.k);
    // Zero keys of 1,024 wires, 8 parties and 128 bytes each.
    let mut work = scratch::<1048576>();
    let drawn = Drawn {
        n: session.n,
        k: session.k,
        size,
        contributions,
    };
    zero_keys(circuit, file, drawn, &mut work[..bytes]);
    let keys = &work[..bytes];
    let masks = wire_masks(circuit, file, drawn);
    put_rows(
        circuit,
        file,
        session,
        size,
        contributions,
        keys,
        &masks,
        rows,
    );
    put_input_masks(&masks, inputs);
    put_sheets(circuit, &masks, session.n, outputs);
}
