// The calls of bundles: whole numbers over the wires.
ghost use Rattle.bundles.specs.Call.{SplitCall, JoinCall, PartCall};

use super::answer::{Reported, tell};
use bundles::{Operation, join, split, write_part};

// Splits an integer into its residues: 23, 14, 24.
pub fn lupiknam_bundle_split(r: u32, integer: u64, residues: &mut [u8]) -> Reported
    ensures { SplitCall r integer residues.old result.number result.place residues.new }
{
    split(r, integer, residues).into()
}

// Joins residues to the integer that has them: 23, 14, 24.
pub fn lupiknam_bundle_join(r: u32, residues: &[u8], integer: &mut u64) -> Reported
    ensures { JoinCall r residues.now integer.old result.number result.place integer.new }
{
    tell(join(r, residues), integer)
}

// Writes the part that adds two bundles: 23, 5, 8, 22.
pub fn lupiknam_bundle_add(
    r: u32,
    first: u32,
    a: u32,
    b: u32,
    file: &mut [u8],
    words: &mut u32,
) -> Reported
    ensures { PartCall (Operation.Add b) r first a file.old words.old result.number result.place file.new words.new }
{
    let made = write_part(Operation::Add(b), r, first, a, file);
    tell(made, words)
}

// Writes the part that multiplies two bundles: 23, 5, 8, 22.
pub fn lupiknam_bundle_multiply(
    r: u32,
    first: u32,
    a: u32,
    b: u32,
    file: &mut [u8],
    words: &mut u32,
) -> Reported
    ensures { PartCall (Operation.Multiply b) r first a file.old words.old result.number result.place file.new words.new }
{
    let made = write_part(Operation::Multiply(b), r, first, a, file);
    tell(made, words)
}

// Writes the part that multiplies a bundle by a constant: 23, 24, 5, 8, 22.
pub fn lupiknam_bundle_scale(
    r: u32,
    first: u32,
    constant: u64,
    a: u32,
    file: &mut [u8],
    words: &mut u32,
) -> Reported
    ensures { PartCall (Operation.Scale constant) r first a file.old words.old result.number result.place file.new words.new }
{
    let made = write_part(Operation::Scale(constant), r, first, a, file);
    tell(made, words)
}
