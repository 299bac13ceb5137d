// The rows of a wire and of a circuit, where a projection and each half of a product lack one.
ghost use Rattle.std.specs.Prelude.{◌≡◌, ◌*◌, ◌≤◌, get_or};
ghost use Rattle.circuit.specs.Held.{wires_in, Room};
ghost use Rattle.counts.specs.Counts.{Counts};
ghost use Rattle.pair.specs.Count.{pair_rows_by, pair_rows_in};

use circuit::Circuit;
use counts::{moduli, modulus_of};
use words::{Gate, Wire};

// The rows of a wire, given the moduli of all wires.
pub fn row_count(wire: Wire, moduli: &[u8]) -> u32
    ensures { Counts 508 (pair_rows_by wire.gate (λ a. get_or moduli.now a 0) wire.modulus) result }
{
    match wire.gate {
        Gate::Multiply(_) => 2 * u32::from(wire.modulus).saturating_sub(1),
        Gate::Project(g) => u32::from(modulus_of(moduli, g.a)).saturating_sub(1),
        Gate::Input(_) | Gate::Add(_) | Gate::Scale(_) | Gate::Select(_) => 0,
    }
}

// The bytes of a wire's rows, of `k` bytes each.
pub fn rows_size(wire: Wire, moduli: &[u8], k: usize) -> usize
    requires { k ≤ 128 }
    ensures { result ≡ pair_rows_by wire.gate (λ a. get_or moduli.now a 0) wire.modulus * k }
{
    row_count(wire, moduli) as usize * k
}

// The rows of a circuit.
pub fn rows(circuit: Circuit) -> u32
    requires { Room circuit }
    ensures { Counts 520192 (pair_rows_in (wires_in circuit)) result }
{
    let table = moduli(circuit);
    let mut total = 0;
    for wire in &circuit.wires[..circuit.made] {
        total += row_count(*wire, &table);
    }
    total
}
