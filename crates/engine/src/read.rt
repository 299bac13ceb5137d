// The calls that read a circuit and count in it.
ghost use Rattle.read_calls.specs.Read.{ReadCall, InputsOfCall};

use super::answer::{Reported, tell};
use read_calls::{inputs_of, summary_of};

// Reads a circuit: 1 to 10.
pub fn lupiknam_read(
    file: &[u8],
    wires: &mut u32,
    inputs: &mut u32,
    outputs: &mut u32,
    rows: &mut u32,
    moduli: &mut u32,
    record_keys: &mut u32,
) -> Reported
    ensures { ReadCall file.now wires.old inputs.old outputs.old rows.old moduli.old record_keys.old
        result.number result.place wires.new inputs.new outputs.new rows.new moduli.new record_keys.new }
{
    match summary_of(file) {
        Ok(found) => {
            *wires = found.wires;
            *inputs = found.inputs;
            *outputs = found.outputs;
            *rows = found.rows;
            *moduli = found.moduli;
            *record_keys = found.records;
            Ok(()).into()
        }
        Err(why) => why.into(),
    }
}

// How many inputs a party owns: 1 to 10, 11 for n, 12, 13, 28.
pub fn lupiknam_inputs_of(file: &[u8], n: u32, party: u32, count: &mut u32) -> Reported
    ensures { InputsOfCall file.now n party count.old result.number result.place count.new }
{
    tell(inputs_of(file, n, party), count)
}
