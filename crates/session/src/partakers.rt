// Whether everyone takes part whom the circuit needs: the owners of its inputs, and the parties that its outputs name.
ghost use Rattle.std.specs.Prelude.{◌≡◌, get_or};
ghost use Rattle.lists.specs.First.{first};
ghost use Rattle.circuit.specs.Held.{wires_in, named_in, Held};
ghost use Rattle.session.specs.Session.{named_absent, named_checked, partakers_checked};

use super::owners::owners_checked;
use checks::{Answer, Refusal, named};
use circuit::Circuit;

// Whether some party from `n` up is among those named. There are eight at most.
fn absent_named(parties: u8, n: u32) -> bool
    ensures { result ≡ named_absent n parties }
{
    n < 8 && 1 << n <= u32::from(parties)
}

// The lowest output that names a party that does not take part; the number of outputs where there is none.
fn first_naming(circuit: Circuit, n: u32) -> usize
    requires { Held circuit }
    ensures { result ≡ first circuit.given (λ i. named_absent n (get_or (named_in circuit) i 0)) }
{
    circuit.named[..circuit.given]
        .iter()
        .position(|parties| absent_named(*parties, n))
        .unwrap_or(circuit.given)
}

fn named_checked(circuit: Circuit, n: u32) -> Answer
    requires { Held circuit }
    ensures { result ≡ named_checked n (named_in circuit) }
{
    named(
        circuit.given,
        first_naming(circuit, n),
        Refusal::NamedAbsent,
    )
}

// The owners first.
pub fn partakers_checked(circuit: Circuit, n: u32) -> Answer
    requires { Held circuit }
    ensures { result ≡ partakers_checked n (wires_in circuit) (named_in circuit) }
{
    owners_checked(circuit, n)?;
    named_checked(circuit, n)
}
