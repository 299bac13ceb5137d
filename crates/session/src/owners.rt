// Whether each input's owner is one of the parties.
ghost use Rattle.std.specs.Prelude.{◌≡◌};
ghost use Rattle.lists.specs.First.{first};
ghost use Rattle.circuit.specs.Wires.{wire_at};
ghost use Rattle.circuit.specs.Held.{wires_in, Room};
ghost use Rattle.session.specs.Session.{owner_absent, owners_checked};

use checks::{Answer, Refusal, named};
use circuit::Circuit;
use words::Gate;

// Whether a gate is an input whose owner does not take part.
fn owner_absent(gate: Gate, n: u32) -> bool
    ensures { result ≡ owner_absent n gate }
{
    matches!(gate, Gate::Input(input) if n <= u32::from(input.owner))
}

// The lowest wire whose owner does not take part; the number of wires where there is none.
fn first_absent(circuit: Circuit, n: u32) -> usize
    requires { Room circuit }
    ensures { result ≡ first circuit.made (λ w. owner_absent n (wire_at (wires_in circuit) w).gate) }
{
    circuit.wires[..circuit.made]
        .iter()
        .position(|wire| owner_absent(wire.gate, n))
        .unwrap_or(circuit.made)
}

pub fn owners_checked(circuit: Circuit, n: u32) -> Answer
    requires { Room circuit }
    ensures { result ≡ owners_checked n (wires_in circuit) }
{
    named(circuit.made, first_absent(circuit, n), Refusal::OwnerAbsent)
}
