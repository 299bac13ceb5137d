// Rows and records of a wire and of a circuit, and the inputs of a party.
ghost use Rattle.std.specs.Prelude.{◌≡◌, ◌<◌, get_or};
ghost use Rattle.counts.specs.Recipe.{recipe};
ghost use Rattle.circuit.specs.Held.{wires_in, Room};
ghost use Rattle.counts.specs.Counts.{rows_by, rows_in, record_keys_by, record_keys_in, mark, owned_by, inputs_of, Counts};

use super::modulus::moduli;
use super::recipe::{Recipe, recipe_of};
use circuit::Circuit;
use words::{Gate, Wire};

// The modulus of a wire, and 0 past the last wire.
pub fn modulus_of(moduli: &[u8], a: u16) -> u8
    ensures { result ≡ get_or moduli.now a 0 }
{
    moduli.get(usize::from(a)).copied().unwrap_or(0)
}

// The rows of a wire, given the moduli of all wires.
pub fn row_count(wire: Wire, moduli: &[u8]) -> u32
    ensures { Counts 512 (rows_by (recipe wire) (λ a. get_or moduli.now a 0) wire.modulus) result }
{
    let p = u32::from(wire.modulus);
    match recipe_of(wire) {
        Recipe::Entered | Recipe::Sum(_) | Recipe::Multiple(_) => 0,
        Recipe::Table(g) => u32::from(modulus_of(moduli, g.a)),
        Recipe::Product(_) => 2 * p,
        Recipe::Choice(_) => 2 * p + 2,
    }
}

// The rows of a circuit.
pub fn rows(circuit: Circuit) -> u32
    requires { Room circuit }
    ensures { Counts 524288 (rows_in (wires_in circuit)) result }
{
    let table = moduli(circuit);
    let mut total = 0;
    for wire in &circuit.wires[..circuit.made] {
        total += row_count(*wire, &table);
    }
    total
}

// The keys in a wire's record.
pub fn record_count(wire: Wire) -> u32
    ensures { Counts 3 (record_keys_by (recipe wire)) result }
{
    match recipe_of(wire) {
        Recipe::Sum(_) | Recipe::Multiple(_) => 0,
        Recipe::Entered | Recipe::Table(_) => 1,
        Recipe::Product(_) => 2,
        Recipe::Choice(_) => 3,
    }
}

// The keys in all records of a party's contribution.
pub fn records(circuit: Circuit) -> u32
    requires { Room circuit }
    ensures { Counts 3072 (record_keys_in (wires_in circuit)) result }
{
    let mut total = 0;
    for wire in &circuit.wires[..circuit.made] {
        total += record_count(*wire);
    }
    total
}

// 1 where a gate is an input that the party owns, else 0.
pub fn owned(gate: Gate, party: u32) -> u32
    ensures { Counts 1 (mark (owned_by party gate)) result }
{
    let owns = matches!(gate, Gate::Input(input) if u32::from(input.owner) == party);
    u32::from(owns)
}

// How many inputs a party owns.
pub fn inputs_of(circuit: Circuit, party: u32) -> u32
    requires { Room circuit }
    ensures { Counts 1024 (inputs_of party (wires_in circuit)) result }
{
    let mut total = 0;
    for wire in &circuit.wires[..circuit.made] {
        total += owned(wire.gate, party);
    }
    total
}
