// Joining residues to the integer that has them, prime by prime.
ghost use Rattle.std.specs.Prelude.{◌≡◌, true, ◌≤◌, ◌<◌, length};
ghost use Rattle.bundles.specs.Primes.{prime, product};
ghost use Rattle.bundles.specs.Integers.{join, all_below};
ghost use Rattle.bundles.specs.Call.{join_checked};
ghost use Rattle.bundles.specs.Climb.{Inverts, Climbs, Joins};

use super::judging::{range_checked, size_checked, unless};
use super::primes::prime;
use super::splitting::residue_at;
use checks::{Answer, Refusal, Refused};
use residue::{mul, sub};

// Of each prime: what the product of the primes before it is multiplied by to give 1 modulo it.
const INVERSES: [u8; 10] = [1, 2, 1, 4, 1, 3, 15, 18, 20, 12];

fn inverse(i: usize) -> u8
    requires { i < 10 }
    ensures { Inverts i result }
{
    INVERSES[i]
}

// From x, which is below the product m of the first i primes, to the number that has this residue of prime i besides. It adds a multiple of m,
// so that the residues so far stay.
fn climb(i: usize, m: u64, x: u64, residue: u8) -> u64
    requires { (i < 10) × (m ≡ product i) × (x < m) × (residue < prime i) }
    ensures { Climbs (product i) (prime i) x residue result }
{
    let p = prime(i);
    let had = residue_at(x, i);
    let times = mul(p, sub(p, residue, had), inverse(i));
    x + m * u64::from(times)
}

// The integer that has these residues, one prime after the other.
fn integer_of(residues: &[u8]) -> u64
    requires { (length residues.now ≤ 10) × (all_below (length residues.now) residues.now ≡ true) }
    ensures { result ≡ join (length residues.now) residues.now }
{
    let mut m = 1;
    let mut x = 0;
    for (i, residue) in residues.iter().enumerate() {
        x = climb(i, m, x, *residue);
        m *= u64::from(prime(i));
    }
    x
}

// Whether each residue is below its prime.
fn all_below(residues: &[u8]) -> bool
    requires { length residues.now ≤ 10 }
    ensures { result ≡ all_below (length residues.now) residues.now }
{
    for (i, byte) in residues.iter().enumerate() {
        if prime(i) <= *byte {
            return false;
        }
    }
    true
}

// 23, 14, 24.
fn join_checked(r: u32, residues: &[u8]) -> Answer
    ensures { result ≡ join_checked r residues.now }
{
    range_checked(r)?;
    size_checked(r, residues.len())?;
    unless(all_below(residues), Refusal::IntegerTooLarge)
}

// The integer below the product of the first r primes that has these residues.
pub fn join(r: u32, residues: &[u8]) -> Result<u64, Refused>
    ensures { Joins r residues.now result }
{
    join_checked(r, residues)?;
    Ok(integer_of(residues))
}
