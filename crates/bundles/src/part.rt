// A part of a circuit on bundles, one gate a prime, written as words.
ghost use Rattle.bundles.specs.Laying.{Makes};

use super::gates::{Part, word_count};
use super::judging::part_checked;
use super::operation::Operation;
use checks::Refused;

// Writes the part that makes wires from `first` on, of the bundle whose first wire is `a`. Refused or not, the contract gives the answer, the number of
// words and every byte of the buffer.
pub fn write_part(
    operation: Operation,
    r: u32,
    first: u32,
    a: u32,
    file: &mut [u8],
) -> Result<u32, Refused>
    ensures { Makes operation r first a file.old result file.new }
{
    part_checked(operation, r, first, a, file.len())?;
    let part = Part {
        operation,
        a,
        r: r as usize,
    };
    part.lay(file);
    Ok(word_count(operation, part.r) as u32)
}
