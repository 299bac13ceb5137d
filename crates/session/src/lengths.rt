// Whether lent buffers have the lengths that are wanted.
ghost use Rattle.std.specs.Prelude.{◌≡◌};
ghost use Rattle.session.specs.Session.{lengths_checked};

use checks::{Answer, Refusal};

// 14: each length that is lent is the one wanted, one by one.
pub fn lengths_checked(lent: &[usize], wanted: &[usize]) -> Answer
    ensures { result ≡ lengths_checked lent.now wanted.now }
{
    if lent == wanted {
        Ok(())
    } else {
        Err(Refusal::WrongLength.at(0))
    }
}
