// One item, judged as the reader judges it and laid down.
ghost use Rattle.std.specs.Prelude.{◌≡◌, ◌<◌, take};
ghost use Rattle.checks.specs.Answer.{accepts};
ghost use Rattle.words.specs.Cut.{cut_word};
ghost use Rattle.words.specs.Items.{judged};
ghost use Rattle.writer.specs.Desk.{desk, desk_after, lay_item};
ghost use Rattle.writer.specs.Walked.{Steady, RoomFor};

use super::laying::lay_word;
use super::pen::{Pen, go_on, stop};
use checks::Answer;
use words::{Due, Item, Step, branches_item, encode, judge};

// What an item did is noted, and its word is laid down in the pass that lays; or it was refused.
fn went(
    step: Step,
    w: u32,
    place: usize,
    moduli: &mut [u8],
    file: &mut [u8],
    pen: &mut Pen,
    lay: bool,
)
    requires { (pen.old.answer ≡ accepts) × Steady pen.old moduli.old × RoomFor step pen.old moduli.old × (pen.old.at < 900000) }
    ensures { desk pen.new moduli.new file.new ≡ desk_after lay place w (desk pen.old moduli.old file.old) step }
{
    let due = pen.due;
    let made = pen.made;
    let given = pen.given;
    let taken = pen.taken;
    let at = pen.at;
    let next = at + 1;
    match step {
        Step::Refused(reason) => stop(pen, reason, place),
        Step::Makes(wire, then) => {
            moduli[made] = wire.modulus;
            lay_word(file, at, w, lay);
            go_on(pen, then, made + 1, given, taken, next);
        }
        Step::Goes(then) => {
            lay_word(file, at, w, lay);
            go_on(pen, then, made, given, taken, next);
        }
        Step::Gives(_) => {
            lay_word(file, at, w, lay);
            go_on(pen, Due::Outputs, made, given + 1, taken, next);
        }
        Step::Ends => {
            lay_word(file, at, w, lay);
            go_on(pen, due, made, given, taken, next);
        }
    }
}

// An item, where nothing was refused before.
fn item_on(item: Item, place: usize, moduli: &mut [u8], file: &mut [u8], pen: &mut Pen, lay: bool)
    requires { (pen.old.answer ≡ accepts) × Steady pen.old moduli.old × (pen.old.at < 900000) }
    ensures { desk pen.new moduli.new file.new ≡ desk_after lay place (cut_word item) (desk pen.old moduli.old file.old)
        (judged (take pen.old.made moduli.old) pen.old.given pen.old.at pen.old.due item) }
{
    let due = pen.due;
    let at = pen.at as u32;
    let w = encode(item);
    let step = judge(&moduli[..pen.made], pen.given, at, due, item);
    went(step, w, place, moduli, file, pen, lay);
}

// An item; once the pen is put down nothing happens.
pub fn lay_item(
    item: Item,
    place: usize,
    moduli: &mut [u8],
    file: &mut [u8],
    pen: &mut Pen,
    lay: bool,
)
    requires { Steady pen.old moduli.old × (pen.old.at < 900000) }
    ensures { desk pen.new moduli.new file.new ≡ lay_item lay place item (desk pen.old moduli.old file.old) }
{
    match pen.answer {
        Ok(()) => item_on(item, place, moduli, file, pen, lay),
        Err(_) => {}
    }
}

// The branches of a choice, where nothing was refused before.
fn branches_on(
    a: u32,
    b: u32,
    place: usize,
    moduli: &mut [u8],
    file: &mut [u8],
    pen: &mut Pen,
    lay: bool,
)
    requires { (pen.old.answer ≡ accepts) × Steady pen.old moduli.old × (pen.old.at < 900000) }
    ensures { desk pen.new moduli.new file.new ≡ desk_after lay place (cut_word (Item.Branches a b)) (desk pen.old moduli.old file.old)
        (judged (take pen.old.made moduli.old) pen.old.given pen.old.at pen.old.due (Item.Branches a b)) }
{
    let due = pen.due;
    let w = encode(Item::Branches(a, b));
    let step = branches_item(&moduli[..pen.made], due, a, b);
    went(step, w, place, moduli, file, pen, lay);
}

// The branches of a choice, as `lay_item` would lay them. They do not go by it, because it has one caller, and so the compiler puts it into the loop over
// the records, where neither the item nor the pen goes through memory; a second caller would undo that.
pub fn lay_branches(
    a: u32,
    b: u32,
    place: usize,
    moduli: &mut [u8],
    file: &mut [u8],
    pen: &mut Pen,
    lay: bool,
)
    requires { Steady pen.old moduli.old × (pen.old.at < 900000) }
    ensures { desk pen.new moduli.new file.new ≡ lay_item lay place (Item.Branches a b) (desk pen.old moduli.old file.old) }
{
    match pen.answer {
        Ok(()) => branches_on(a, b, place, moduli, file, pen, lay),
        Err(_) => {}
    }
}
