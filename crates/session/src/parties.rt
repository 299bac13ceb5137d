// How many parties there are, how long their keys, and which of them is asked for.
ghost use Rattle.std.specs.Prelude.{◌≡◌};
ghost use Rattle.session.specs.Session.{parties_checked, session_checked, party_checked};

use checks::{Answer, Refusal};

pub fn parties_checked(n: u32) -> Answer
    ensures { result ≡ parties_checked n }
{
    if (2..=8).contains(&n) {
        Ok(())
    } else {
        Err(Refusal::SessionRange.at(0))
    }
}

// Parties and key length. Both have one refusal at one place, so either may be looked at first.
pub fn session_checked(n: u32, k: u32) -> Answer
    ensures { result ≡ session_checked n k }
{
    if !(1..=128).contains(&k) {
        return Err(Refusal::SessionRange.at(0));
    }
    parties_checked(n)
}

pub fn party_checked(n: u32, party: u32) -> Answer
    ensures { result ≡ party_checked n party }
{
    if party < n {
        Ok(())
    } else {
        Err(Refusal::NoSuchParty.at(party as usize))
    }
}
