// Plain evaluation as a call.
ghost use Rattle.checks.specs.Answer.{number_in, place_in};
ghost use Rattle.plain.specs.Call.{PlainCall};

use super::values::checked;
use super::wires::evaluate;
use checks::Answer;
use circuit::read;

// What the plain circuit of a file gives on the inputs' values: one byte for each output. Refused or not, the contract gives the answer
// and every byte of `outputs`.
pub fn plain(file: &[u8], values: &[u8], outputs: &mut [u8]) -> Answer
    ensures { PlainCall file.now values.now outputs.old (number_in result) (place_in result) outputs.new }
{
    let circuit = read(file)?;
    checked(circuit, values, outputs.len())?;
    evaluate(circuit, file, values, outputs);
    Ok(())
}
