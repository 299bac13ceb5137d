// Numbers that a caller hands over, as a struct by value.
ghost use Rattle.pair_calls.specs.Asked.{SessionOf};

use session::Session;

// How long keys are, and the round, before they are checked.
#[derive(Clone, Copy)]
pub struct AskedRound {
    pub k: u32,
    pub round: u32,
}

// Of a session of two only the key length and the round enter the work.
impl From<AskedRound> for Session {
    ghost from_gives = { SessionOf };

    fn from(asked: AskedRound) -> Session {
        Session {
            n: 2,
            k: asked.k as usize,
            round: asked.round,
        }
    }
}
