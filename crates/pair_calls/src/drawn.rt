// What the garbler drew, where its length is right: 16, then 27.
ghost use Rattle.std.specs.Prelude.{◌≡◌};
ghost use Rattle.circuit.specs.Held.{wires_in};
ghost use Rattle.pair.specs.Bytes.{drawn_checked};
ghost use Rattle.pair_calls.specs.Lent.{Drawn};

use checks::Answer;
use circuit::Circuit;
use pair_checks::{draw_checked, units_checked};

pub fn drawn_checked(circuit: Circuit, k: usize, draw: &[u8]) -> Answer
    requires { Drawn circuit k draw.now }
    ensures { result ≡ drawn_checked k (wires_in circuit) draw.now }
{
    draw_checked(circuit, k, draw)?;
    units_checked(circuit, k, draw)
}
