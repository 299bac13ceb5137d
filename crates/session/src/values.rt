// Whether each value is below the modulus of its wire.
ghost use Rattle.std.specs.Prelude.{◌≡◌, ◌≤◌, length};
ghost use Rattle.lists.specs.First.{first};
ghost use Rattle.circuit.specs.Wires.{modulus_at};
ghost use Rattle.circuit.specs.Held.{wires_in, Room};
ghost use Rattle.session.specs.Session.{too_large, values_checked};

use checks::{Answer, Refusal, named};
use circuit::Circuit;

// The lowest index of a value that is not below its wire's modulus; the number of values where there is none.
fn first_too_large(circuit: Circuit, values: &[u8]) -> usize
    requires { Room circuit × (length values.now ≤ circuit.made) }
    ensures { result ≡ first (length values.now) (too_large values.now (modulus_at (wires_in circuit))) }
{
    values
        .iter()
        .zip(&circuit.wires[..circuit.made])
        .position(|(value, wire)| wire.modulus <= *value)
        .unwrap_or(values.len())
}

// One value for each of the first wires, of which there are no fewer.
pub fn values_checked(circuit: Circuit, values: &[u8]) -> Answer
    requires { Room circuit × (length values.now ≤ circuit.made) }
    ensures { result ≡ values_checked values.now (modulus_at (wires_in circuit)) }
{
    named(
        values.len(),
        first_too_large(circuit, values),
        Refusal::ValueTooLarge,
    )
}
