// The records of a circuit that was read.
ghost use Rattle.std.specs.Prelude.{◌≡◌, ◌+◌, map, length};
ghost use mathlib.Core.List.{zip_with};
ghost use Rattle.circuit.specs.Held.{wires_in, outputs_in, named_in, Held};
ghost use Rattle.writer.specs.Listed.{wire_record, output_record, records_of};

use super::entry::Record;
use circuit::Circuit;
use words::{Gate, Wire};

// The record of a wire: its kind is that of the gate's first word, and a field that the kind does not use is 0.
fn wire_record(wire: Wire) -> Record
    ensures { result ≡ wire_record wire }
{
    let modulus = u32::from(wire.modulus);
    match wire.gate {
        Gate::Input(g) => Record {
            kind: 2,
            modulus,
            owner: u32::from(g.owner),
            ..Record::default()
        },
        Gate::Add(g) => Record {
            kind: 3,
            a: u32::from(g.a),
            b: u32::from(g.b),
            ..Record::default()
        },
        Gate::Scale(g) => Record {
            kind: 4,
            constant: u32::from(g.constant),
            a: u32::from(g.a),
            ..Record::default()
        },
        Gate::Multiply(g) => Record {
            kind: 5,
            a: u32::from(g.a),
            b: u32::from(g.b),
            ..Record::default()
        },
        Gate::Project(g) => Record {
            kind: 6,
            modulus,
            a: u32::from(g.a),
            ..Record::default()
        },
        Gate::Select(g) => Record {
            kind: 8,
            bit: u32::from(g.bit),
            a: u32::from(g.a),
            b: u32::from(g.b),
            ..Record::default()
        },
    }
}

// The record of an output, with the parties that it names.
fn output_record(wire: u16, named: u8) -> Record
    ensures { result ≡ output_record wire named }
{
    Record {
        kind: 10,
        a: u32::from(wire),
        named,
        ..Record::default()
    }
}

// The records of all wires, in the order of the wires.
fn put_wires(wires: &[Wire], records: &mut [Record])
    requires { length records.old ≡ length wires.now }
    ensures { records.new ≡ map wire_record wires.now }
{
    for (w, wire) in wires.iter().enumerate() {
        records[w] = wire_record(*wire);
    }
}

// The records of all outputs.
fn put_outputs(outputs: &[u16], named: &[u8], records: &mut [Record])
    requires { (length records.old ≡ length outputs.now) × (length named.now ≡ length outputs.now) }
    ensures { records.new ≡ zip_with output_record outputs.now named.now }
{
    for (i, record) in records.iter_mut().enumerate() {
        *record = output_record(outputs[i], named[i]);
    }
}

// All records: those of the wires, then those of the outputs.
pub fn put_records(circuit: Circuit, records: &mut [Record])
    requires { Held circuit × (length records.old ≡ circuit.made + circuit.given) }
    ensures { records.new ≡ records_of (wires_in circuit) (outputs_in circuit) (named_in circuit) }
{
    let made = circuit.made;
    let given = circuit.given;
    put_wires(&circuit.wires[..made], &mut records[..made]);
    put_outputs(
        &circuit.outputs[..given],
        &circuit.named[..given],
        &mut records[made..],
    );
}
