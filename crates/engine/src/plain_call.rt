// Plain evaluation.
ghost use Rattle.plain.specs.Call.{PlainCall};

use super::answer::Reported;

// The outputs' values, from those of the inputs: 1 to 10, 14, 15.
pub fn lupiknam_plain(file: &[u8], values: &[u8], outputs: &mut [u8]) -> Reported
    ensures { PlainCall file.now values.now outputs.old result.number result.place outputs.new }
{
    plain::plain(file, values, outputs).into()
}
