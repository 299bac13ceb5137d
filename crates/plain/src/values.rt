// The checks after reading: the lengths of what is lent, and the inputs' values.
ghost use Rattle.std.specs.Prelude.{◌≡◌};
ghost use Rattle.circuit.specs.Held.{wires_in, outputs_in, Held};
ghost use Rattle.plain.specs.Call.{fed_checked};

use checks::Answer;
use circuit::Circuit;
use session::{lengths_checked, values_checked};

// A value for each input and a byte for each output, and then each value below its input's modulus.
pub fn checked(circuit: Circuit, values: &[u8], bytes: usize) -> Answer
    requires { Held circuit }
    ensures { result ≡ fed_checked (wires_in circuit) (outputs_in circuit) values.now bytes }
{
    lengths_checked(&[values.len(), bytes], &[circuit.inputs, circuit.given])?;
    values_checked(circuit, values)
}
