// Numbers that travel together, as structs by value.
ghost use Rattle.std.specs.Prelude.{◌≡◌};

// How many parties there are, how long their keys, and the round.
#[derive(Clone, Copy, Debug, PartialEq, Eq)]
pub struct Session {
    pub n: usize,
    pub k: usize,
    pub round: u32,
}

// Those, and one of the parties.
#[derive(Clone, Copy, Debug, PartialEq, Eq)]
pub struct Seat {
    pub n: usize,
    pub k: usize,
    pub party: usize,
    pub round: u32,
}

// The same as a caller hands them over, before they are checked. Types of their own and not one over a number's type, so that none is taken for the other.
#[derive(Clone, Copy, Debug, PartialEq, Eq)]
pub struct AskedSession {
    pub n: u32,
    pub k: u32,
    pub round: u32,
}

#[derive(Clone, Copy, Debug, PartialEq, Eq)]
pub struct AskedSeat {
    pub n: u32,
    pub k: u32,
    pub party: u32,
    pub round: u32,
}

impl From<AskedSession> for Session {
    ghost from_gives = { λ asked session. session ≡ record { n = asked.n; k = asked.k; round = asked.round } };

    fn from(asked: AskedSession) -> Session {
        Session {
            n: asked.n as usize,
            k: asked.k as usize,
            round: asked.round,
        }
    }
}

impl From<AskedSeat> for Seat {
    ghost from_gives = { λ asked seat. seat ≡ record { n = asked.n; k = asked.k; party = asked.party; round = asked.round } };

    fn from(asked: AskedSeat) -> Seat {
        Seat {
            n: asked.n as usize,
            k: asked.k as usize,
            party: asked.party as usize,
            round: asked.round,
        }
    }
}
