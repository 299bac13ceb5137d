// A projection's table: its entries are taken from the lent tables, judged in one tight loop and laid down in another.
ghost use Rattle.std.specs.Prelude.{◌≡◌, List, ℕ, ◌<◌};
ghost use Rattle.checks.specs.Answer.{accepts};
ghost use Rattle.words.specs.declared.gate.Due.TheVariants.{Entries};
ghost use Rattle.writer.specs.Desk.{desk, all_below, table_due, lay_table};

use super::laying::lay_entries;
use super::pen::{Pen, go_on, stop};
use checks::{Answer, Refusal};
use words::Due;

// Whether all images are below a modulus. No image ends the loop, so that the compiler may test several at once.
fn all_below(images: &[u8], modulus: u8) -> bool
    ensures { result ≡ all_below modulus images.now }
{
    let mut good = true;
    for image in images {
        good &= *image < modulus;
    }
    good
}

// The entries that are there are judged first, and then whether there are enough.
fn table_due(
    tables: &[u8],
    place: usize,
    file: &mut [u8],
    pen: &mut Pen,
    lay: bool,
    left: u8,
    modulus: u8,
)
    requires { (pen.old.answer ≡ accepts) × (pen.old.at < 900000) }
    ensures { (moduli : List ℕ) → desk pen.new moduli file.new ≡ table_due lay place tables.now (desk pen.old moduli file.old) (Entries left modulus) }
{
    let taken = pen.taken;
    let at = pen.at;
    let made = pen.made;
    let given = pen.given;
    let n = tables.len();
    let wanted = usize::from(left);
    // never more entries are taken than there are
    if n < taken {
        return stop(pen, Refusal::WrongLength, place);
    }
    if n - taken < wanted {
        if all_below(&tables[taken..], modulus) {
            return stop(pen, Refusal::WrongLength, place);
        }
        return stop(pen, Refusal::OutOfRange, place);
    }
    let past = taken + wanted;
    let images = &tables[taken..past];
    if !all_below(images, modulus) {
        return stop(pen, Refusal::OutOfRange, place);
    }
    lay_entries(file, at, images, lay);
    go_on(pen, Due::Gates, made, given, past, at + wanted);
}

// The table that is due after a projection's own word; once the pen is put down nothing happens.
pub fn lay_table(tables: &[u8], place: usize, file: &mut [u8], pen: &mut Pen, lay: bool)
    requires { pen.old.at < 900000 }
    ensures { (moduli : List ℕ) → desk pen.new moduli file.new ≡ lay_table lay place tables.now (desk pen.old moduli file.old) }
{
    if let Err(_) = pen.answer {
        return;
    }
    if let Due::Entries(left, modulus) = pen.due {
        table_due(tables, place, file, pen, lay, left, modulus);
    }
}
