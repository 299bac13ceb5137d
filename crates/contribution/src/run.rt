// Runs of bytes, each against one modulus. Buffers are long and hardly ever bad: a pass that only keeps the largest byte so far comes first,
// and the search by index follows where that byte is too large.
ghost use Rattle.std.specs.Prelude.{◌≡◌, ◌≤◌, ◌<◌, ℕ, leb, length, get_or};
ghost use Rattle.lists.specs.Blocks.{runs};
ghost use Rattle.lists.specs.First.{first};
ghost use Rattle.contribution.specs.Large.{Bounded, first_large};
ghost use Rattle.contribution.specs.Runs.{RunsAre};

use lists::piece;

// So many bytes, each of which is to be below the modulus.
#[derive(Clone, Copy)]
pub struct Run {
    pub bytes: usize,
    pub modulus: u8,
}

// A byte that none of the bytes is larger than.
fn bound(bytes: &[u8]) -> u8
    ensures { Bounded result bytes.now }
{
    let mut most = 0u8;
    for x in bytes {
        most = most.max(*x);
    }
    most
}

// The lowest index of a byte that is not below p; the number of bytes where there is none.
pub fn first_at_least(p: u8, bytes: &[u8]) -> usize
    ensures { result ≡ first (length bytes.now) (λ i. leb p (get_or bytes.now i 0)) }
{
    let most = bound(bytes);
    if most < p {
        return bytes.len();
    }
    bytes.iter().position(|x| p <= *x).unwrap_or(bytes.len())
}

// In runs one behind another, the lowest index of a byte that is not below its run's modulus; the number of bytes where there is none.
pub fn first_in_runs<R: Fn(usize) -> Run>(count: usize, nth: R, bytes: &[u8]) -> usize
    requires callable { (i : ℕ) → i < count → R.pre nth i }
    requires runs_are { (size modulus : ℕ → ℕ) × RunsAre R.Fn nth count size modulus bytes.now }
    ensures { (size modulus : ℕ → ℕ) → RunsAre R.Fn nth count size modulus bytes.now → result ≡ first_large bytes.now (λ i. get_or (runs count size modulus) i 0) }
{
    let mut at = 0;
    for i in 0..count {
        let run = nth(i);
        let found = first_at_least(run.modulus, piece(bytes, at, run.bytes));
        if found < run.bytes {
            return at + found;
        }
        at += run.bytes;
    }
    at
}
