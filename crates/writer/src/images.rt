// The tables of a circuit that was read: the images of its projections, one table after another in the order of the wires.
ghost use Rattle.std.specs.Prelude.{◌≡◌, ◌+◌, ◌*◌, ◌≤◌, length, get_or};
ghost use Rattle.lists.specs.Blocks.{tab};
ghost use Rattle.words.specs.Bits.{word_at, image};
ghost use Rattle.circuit.specs.Held.{wires_in, Room};
ghost use Rattle.counts.specs.Counts.{Counts};
ghost use Rattle.writer.specs.Listed.{tables_of};
ghost use Rattle.writer.specs.Listing.{entries_by, entries_in, table_in, Inside, Fills};

use circuit::Circuit;
use counts::{moduli, modulus_of};
use words::Gate;

// How many entries a gate's table has: a projection's one for each value of the projected wire, the others' none.
fn entry_count(gate: Gate, moduli: &[u8]) -> usize
    ensures { Counts 255 (entries_by gate (λ a. get_or moduli.now a 0)) result }
{
    match gate {
        Gate::Project(g) => usize::from(modulus_of(moduli, g.a)),
        _ => 0,
    }
}

// How many entries all tables have.
pub fn entries_in(circuit: Circuit) -> usize
    requires { Room circuit }
    ensures { Counts 261120 (entries_in (wires_in circuit)) result }
{
    let table = moduli(circuit);
    let mut total = 0;
    for wire in &circuit.wires[..circuit.made] {
        total += entry_count(wire.gate, &table);
    }
    total
}

// The images of a table, whose first entry stands at an index of the file. An image is in bits 7 to 0 of its word, so in the first of its bytes.
fn copy_images(file: &[u8], first: usize, table: &mut [u8])
    requires { 4 * (first + length table.old) ≤ length file.now }
    ensures { table.new ≡ tab (length table.old) (λ v. image (word_at file.now (first + v))) }
{
    for (v, image) in table.iter_mut().enumerate() {
        *image = file[4 * (first + v)];
    }
}

// The table of a gate, where it has one.
fn put_table(gate: Gate, file: &[u8], table: &mut [u8])
    requires { Inside file.now gate (length table.old) }
    ensures { table.new ≡ table_in file.now gate table.old }
{
    if let Gate::Project(g) = gate {
        copy_images(file, g.table as usize, table);
    }
}

// All tables, in the order of the wires.
pub fn put_tables(circuit: Circuit, file: &[u8], tables: &mut [u8])
    requires { Fills file.now circuit (length tables.old) }
    ensures { tables.new ≡ tables_of file.now (wires_in circuit) }
{
    let table = moduli(circuit);
    let mut at = 0;
    for wire in &circuit.wires[..circuit.made] {
        let to = at + entry_count(wire.gate, &table);
        put_table(wire.gate, file, &mut tables[at..to]);
        at = to;
    }
}
