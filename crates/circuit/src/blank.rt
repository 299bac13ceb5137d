// Where nothing is read yet. A function of its own, so that the reader's proof does not have the arrays' elements before it.
ghost use Rattle.std.specs.Prelude.{◌≡◌, replicate};
ghost use Rattle.circuit.specs.Wires.{no_wire};
ghost use Rattle.circuit.specs.Held.{circuit_of};

use super::Circuit;
use words::{Gate, Owned, Wire};

// A circuit with no wires and no outputs.
pub fn empty() -> Circuit
    ensures { result ≡ circuit_of (replicate 1024 no_wire) (replicate 256 0) (replicate 256 0) 0 0 0 }
{
    let none = Wire {
        gate: Gate::Input(Owned { owner: 0 }),
        modulus: 0,
    };
    Circuit {
        wires: [none; 1024],
        outputs: [0; 256],
        named: [0; 256],
        made: 0,
        inputs: 0,
        given: 0,
    }
}
