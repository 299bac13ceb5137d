// Whole numbers over the wires.
ghost use Rattle.bundles.specs.Call.{SplitCall, JoinCall, PartCall};

use bundles::Operation;
use engine::Reported;

#[unsafe(no_mangle)]
pub extern "C" fn lupiknam_bundle_split(r: u32, integer: u64, residues: &mut [u8]) -> Reported
    ensures { SplitCall r integer residues.old result.number result.place residues.new }
{
    engine::lupiknam_bundle_split(r, integer, residues)
}

#[unsafe(no_mangle)]
pub extern "C" fn lupiknam_bundle_join(r: u32, residues: &[u8], integer: &mut u64) -> Reported
    ensures { JoinCall r residues.now integer.old result.number result.place integer.new }
{
    engine::lupiknam_bundle_join(r, residues, integer)
}

#[unsafe(no_mangle)]
pub extern "C" fn lupiknam_bundle_add(
    r: u32,
    first: u32,
    a: u32,
    b: u32,
    file: &mut [u8],
    words: &mut u32,
) -> Reported
    ensures { PartCall (Operation.Add b) r first a file.old words.old result.number result.place file.new words.new }
{
    engine::lupiknam_bundle_add(r, first, a, b, file, words)
}

#[unsafe(no_mangle)]
pub extern "C" fn lupiknam_bundle_multiply(
    r: u32,
    first: u32,
    a: u32,
    b: u32,
    file: &mut [u8],
    words: &mut u32,
) -> Reported
    ensures { PartCall (Operation.Multiply b) r first a file.old words.old result.number result.place file.new words.new }
{
    engine::lupiknam_bundle_multiply(r, first, a, b, file, words)
}

#[unsafe(no_mangle)]
pub extern "C" fn lupiknam_bundle_scale(
    r: u32,
    first: u32,
    constant: u64,
    a: u32,
    file: &mut [u8],
    words: &mut u32,
) -> Reported
    ensures { PartCall (Operation.Scale constant) r first a file.old words.old result.number result.place file.new words.new }
{
    engine::lupiknam_bundle_scale(r, first, constant, a, file, words)
}
