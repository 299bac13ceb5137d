// An answer as C has it.
ghost use Rattle.std.specs.Prelude.{◌≡◌};
ghost use Rattle.checks.specs.Answer.{number_of, number_in, place_in};
ghost use Rattle.engine.specs.Told.{Told};

use checks::{Answer, Refused};

// Number and place, 0 and 0 where the call was accepted: `lupiknam_answer` of the header.
#[repr(C)]
#[derive(Clone, Copy)]
pub struct Reported {
    pub number: u32,
    pub place: usize,
}

impl From<Refused> for Reported {
    ghost from_gives = { λ why reported. (reported.number ≡ number_of why.reason) × (reported.place ≡ why.place) };

    fn from(why: Refused) -> Reported {
        Reported {
            number: why.reason.into(),
            place: why.place,
        }
    }
}

impl From<Answer> for Reported {
    ghost from_gives = { λ answer reported. (reported.number ≡ number_in answer) × (reported.place ≡ place_in answer) };

    fn from(answer: Answer) -> Reported {
        match answer {
            Ok(()) => Reported {
                number: 0,
                place: 0,
            },
            Err(why) => why.into(),
        }
    }
}

// The answer of a call that gives a number where it is accepted: the number goes to its place, which a refused call leaves as it was.
pub fn tell<T: Copy>(found: Result<T, Refused>, out: &mut T) -> Reported
    ensures { Told found out.old result.number result.place out.new }
{
    match found {
        Ok(value) => {
            *out = value;
            Ok(()).into()
        }
        Err(why) => why.into(),
    }
}
