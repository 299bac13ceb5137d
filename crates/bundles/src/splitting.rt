// Splitting an integer into its residues.
ghost use Rattle.std.specs.Prelude.{◌≡◌, ◌%◌, ◌≤◌, ◌<◌, length};
ghost use Rattle.checks.specs.Answer.{number_in, place_in};
ghost use Rattle.bundles.specs.Primes.{prime};
ghost use Rattle.bundles.specs.Integers.{split};
ghost use Rattle.bundles.specs.Call.{split_checked, SplitCall};

use super::judging::{integer_checked, range_checked, size_checked};
use super::primes::prime;
use checks::Answer;

// The residue of prime i.
pub fn residue_at(integer: u64, i: usize) -> u8
    requires { i < 10 }
    ensures { result ≡ integer % prime i }
{
    (integer % u64::from(prime(i))) as u8
}

fn put_residues(integer: u64, residues: &mut [u8])
    requires { length residues.old ≤ 10 }
    ensures { residues.new ≡ split (length residues.old) integer }
{
    for (i, residue) in residues.iter_mut().enumerate() {
        *residue = residue_at(integer, i);
    }
}

// 23, 14, 24.
fn split_checked(r: u32, integer: u64, size: usize) -> Answer
    ensures { result ≡ split_checked r integer size }
{
    range_checked(r)?;
    size_checked(r, size)?;
    integer_checked(r as usize, integer)
}

// An integer's residues: one byte for each of the first r primes.
pub fn split(r: u32, integer: u64, residues: &mut [u8]) -> Answer
    ensures { SplitCall r integer residues.old (number_in result) (place_in result) residues.new }
{
    split_checked(r, integer, residues.len())?;
    put_residues(integer, residues);
    Ok(())
}
