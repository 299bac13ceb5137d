// The moduli of a circuit's wires, and which numbers are among them.
ghost use Rattle.std.specs.Prelude.{◌≡◌, ◌++◌, ◌-◌, replicate};
ghost use Rattle.lists.specs.Blocks.{tab};
ghost use Rattle.circuit.specs.Wires.{moduli_of};
ghost use Rattle.circuit.specs.Held.{wires_in, Room};
ghost use Rattle.counts.specs.Counts.{mark, Counts};
ghost use Rattle.counts.specs.Moduli.{used, moduli_used, SetMarks};

use circuit::Circuit;
use lists::zeros;

// Each wire's modulus, and 0 past the last wire.
pub fn moduli(circuit: Circuit) -> [u8; 1024]
    requires { Room circuit }
    ensures { result ≡ moduli_of (wires_in circuit) ++ replicate (1024 - circuit.made) 0 }
{
    let mut moduli = zeros();
    for (w, wire) in circuit.wires[..circuit.made].iter().enumerate() {
        moduli[w] = wire.modulus;
    }
    moduli
}

// A mark for each byte: 1 where it is the modulus of some wire, else 0. A number and no `bool`, since the places of offsets are sums of marks.
pub fn marks(circuit: Circuit) -> [u8; 256]
    requires { Room circuit }
    ensures { result ≡ tab 256 (λ p. mark (used (wires_in circuit) p)) }
{
    let mut marks = zeros();
    for wire in &circuit.wires[..circuit.made] {
        marks[usize::from(wire.modulus)] = 1;
    }
    marks
}

// How many marks are set. They are added up: as the number of those that a filter leaves, the compiler took them one by one.
pub fn marks_set(marks: [u8; 256]) -> u32
    ensures { SetMarks marks result }
{
    let mut total = 0;
    for mark in &marks {
        total += u32::from(*mark == 1);
    }
    total
}

// How many moduli the wires have.
pub fn moduli_used(circuit: Circuit) -> u32
    requires { Room circuit }
    ensures { Counts 256 (moduli_used (wires_in circuit)) result }
{
    marks_set(marks(circuit))
}
