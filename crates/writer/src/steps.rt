// The head, and one record after another.
ghost use Rattle.std.specs.Prelude.{◌≡◌, List, ℕ, ◌<◌};
ghost use Rattle.writer.specs.Desk.{desk, refuse, rest_on, spoken_on};
ghost use Rattle.writer.specs.Walked.{Steady, Begun, Ready, Stepped};

use super::entry::Record;
use super::items::{lay_branches, lay_item};
use super::laying::lay_word;
use super::pen::{Pen, pen_of, stop};
use super::speech::{Rest, Said, speak};
use super::table::lay_table;
use checks::{Answer, Refusal};
use words::{Due, Item, encode};

// The head word; inputs are due.
pub fn begin(file: &mut [u8], lay: bool) -> Pen
    ensures { Begun lay file.old result file.new }
{
    lay_word(file, 0, encode(Item::Head), lay);
    pen_of(Due::Inputs, 0, 0, 0, 1)
}

// A record that says nothing; once the pen is put down nothing happens.
fn refuse(pen: &mut Pen, place: usize)
    ensures { (moduli file : List ℕ) → desk pen.new moduli file ≡ refuse place (desk pen.old moduli file) pen.old.answer }
{
    match pen.answer {
        Ok(()) => stop(pen, Refusal::UnknownWord, place),
        Err(_) => {}
    }
}

// What follows a record's first item.
fn rest_on(
    rest: Rest,
    place: usize,
    tables: &[u8],
    moduli: &mut [u8],
    file: &mut [u8],
    pen: &mut Pen,
    lay: bool,
)
    requires { Steady pen.old moduli.old × (pen.old.at < 900000) }
    ensures { desk pen.new moduli.new file.new ≡ rest_on lay tables.now place rest (desk pen.old moduli.old file.old) }
{
    match rest {
        Rest::Alone => {}
        Rest::Table => lay_table(tables, place, file, pen, lay),
        Rest::Branches(a, b) => lay_branches(a, b, place, moduli, file, pen, lay),
    }
}

// What a record says is laid down, its first item and the rest.
fn spoken_on(
    said: Option<Said>,
    place: usize,
    tables: &[u8],
    moduli: &mut [u8],
    file: &mut [u8],
    pen: &mut Pen,
    lay: bool,
)
    requires { Ready pen.old moduli.old }
    ensures { desk pen.new moduli.new file.new ≡ spoken_on lay tables.now place said (desk pen.old moduli.old file.old) }
{
    match said {
        None => refuse(pen, place),
        Some(Said { first, rest }) => {
            lay_item(first, place, moduli, file, pen, lay);
            rest_on(rest, place, tables, moduli, file, pen, lay);
        }
    }
}

// One record. Its index is the number of wires made and outputs given before it.
pub fn step(
    entry: Record,
    tables: &[u8],
    moduli: &mut [u8],
    file: &mut [u8],
    pen: &mut Pen,
    lay: bool,
)
    requires { Ready pen.old moduli.old }
    ensures { Stepped lay tables.now entry pen.old moduli.old file.old pen.new moduli.new file.new }
{
    let place = pen.made + pen.given;
    spoken_on(speak(entry), place, tables, moduli, file, pen, lay);
}
