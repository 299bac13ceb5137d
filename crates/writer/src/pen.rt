// Where the writer stands: what it answers so far, and what the code holds of the draft. The moduli of the wires made stand in an array beside it.
ghost use Rattle.std.specs.Prelude.{◌≡◌};
ghost use Rattle.checks.specs.Answer.{accepts};
ghost use Rattle.writer.specs.Desk.{pen_of, stop};

use checks::{Answer, Refusal};
use words::Due;

// The answer stands beside the rest and not around it, since the definitions (`desk`, `lay_item`, `refuse` of specs/Desk) take both from a refused pen.
// It is lent to each step and written where it lies: to hand it on by value copied an answer several times a record, and that was half the time of writing.
// `made` wires, `given` outputs, `taken` entries of the tables, and `at` words, the head counted. Once it refuses, nothing of it changes any more.
#[derive(Clone, Copy, Debug, PartialEq, Eq)]
pub struct Pen {
    pub answer: Answer,
    pub due: Due,
    pub made: usize,
    pub given: usize,
    pub taken: usize,
    pub at: usize,
}

// The pen is put down: a record is refused.
pub fn stop(pen: &mut Pen, reason: Refusal, place: usize)
    ensures { pen.new ≡ stop pen.old reason place }
{
    pen.answer = Err(reason.at(place));
}

// The pen where nothing is refused goes on.
pub fn go_on(pen: &mut Pen, due: Due, made: usize, given: usize, taken: usize, at: usize)
    requires { pen.old.answer ≡ accepts }
    ensures { pen.new ≡ pen_of due made given taken at }
{
    pen.due = due;
    pen.made = made;
    pen.given = given;
    pen.taken = taken;
    pen.at = at;
}

// The pen where nothing is refused.
pub fn pen_of(due: Due, made: usize, given: usize, taken: usize, at: usize) -> Pen
    ensures { result ≡ pen_of due made given taken at }
{
    Pen {
        answer: Ok(()),
        due,
        made,
        given,
        taken,
        at,
    }
}
