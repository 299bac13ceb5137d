// Reading a circuit and counting in it.
ghost use Rattle.read_calls.specs.Read.{ReadCall, InputsOfCall};

use engine::Reported;

#[unsafe(no_mangle)]
pub extern "C" fn lupiknam_read(
    file: &[u8],
    wires: &mut u32,
    inputs: &mut u32,
    outputs: &mut u32,
    rows: &mut u32,
    moduli: &mut u32,
    record_keys: &mut u32,
) -> Reported
    ensures { ReadCall file.now wires.old inputs.old outputs.old rows.old moduli.old record_keys.old
        result.number result.place wires.new inputs.new outputs.new rows.new moduli.new record_keys.new }
{
    engine::lupiknam_read(file, wires, inputs, outputs, rows, moduli, record_keys)
}

#[unsafe(no_mangle)]
pub extern "C" fn lupiknam_inputs_of(file: &[u8], n: u32, party: u32, count: &mut u32) -> Reported
    ensures { InputsOfCall file.now n party count.old result.number result.place count.new }
{
    engine::lupiknam_inputs_of(file, n, party, count)
}
