// The answer of a search for the lowest bad number.
ghost use Rattle.std.specs.Prelude.{◌≡◌};
ghost use Rattle.checks.specs.Checked.{named};

use super::{Answer, Refusal};

// Accepted where the number found is not below n, else refused there.
#[tactic(auto, unfolding(crate::specs::Checked::unless))]
pub fn named(n: usize, found: usize, reason: Refusal) -> Answer
    ensures { result ≡ named n found reason }
{
    if n <= found {
        Ok(())
    } else {
        Err(reason.at(found))
    }
}
