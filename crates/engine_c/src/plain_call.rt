// Plain evaluation.
ghost use Rattle.plain.specs.Call.{PlainCall};

use engine::Reported;

#[unsafe(no_mangle)]
pub extern "C" fn lupiknam_plain(file: &[u8], values: &[u8], outputs: &mut [u8]) -> Reported
    ensures { PlainCall file.now values.now outputs.old result.number result.place outputs.new }
{
    engine::lupiknam_plain(file, values, outputs)
}
