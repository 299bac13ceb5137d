// What a record says.
ghost use Rattle.std.specs.Prelude.{◌≡◌, cond, List, ℕ, None};
ghost use Rattle.writer.specs.Says.{speech_of};
ghost use Rattle.writer.specs.Desk.{Means, saying, unset};

use super::entry::Record;
use words::Item;

// What follows a record's first item: nothing; the entries of its table, which stand in the tables; the branches of a choice.
#[derive(Clone, Copy, Debug, PartialEq, Eq)]
pub enum Rest {
    Alone,
    Table,
    Branches(u32, u32),
}

// What a record says: its first item, and the rest.
#[derive(Clone, Copy, Debug, PartialEq, Eq)]
pub struct Said {
    pub first: Item,
    pub rest: Rest,
}

// Fields that are not set.
fn unset(fields: &[u32]) -> bool
    ensures { result ≡ unset fields.now }
{
    fields.iter().all(|field| *field == 0)
}

// What is said, where the other fields are not set.
fn spoken(unset: bool, first: Item, rest: Rest) -> Option<Said>
    ensures { result ≡ cond unset (saying first rest) None }
{
    if unset {
        Some(Said { first, rest })
    } else {
        None
    }
}

// The same of a record that has one item alone.
fn alone(unset: bool, first: Item) -> Option<Said>
    ensures { result ≡ cond unset (saying first Rest.Alone) None }
{
    spoken(unset, first, Rest::Alone)
}

// None, where the kind is none of a record's or a field is set that its kind does not use.
pub fn speak(entry: Record) -> Option<Said>
    ensures { (moduli tables : List ℕ) → Means moduli tables result (speech_of moduli tables entry) }
{
    let Record {
        kind,
        modulus,
        owner,
        constant,
        bit,
        a,
        b,
        named,
    } = entry;
    let named = u32::from(named);
    match kind {
        2 => alone(
            unset(&[constant, bit, a, b, named]),
            Item::Input(owner, modulus),
        ),
        3 => alone(
            unset(&[modulus, owner, constant, bit, named]),
            Item::Add(a, b),
        ),
        4 => alone(
            unset(&[modulus, owner, bit, b, named]),
            Item::Scale(constant, a),
        ),
        5 => alone(
            unset(&[modulus, owner, constant, bit, named]),
            Item::Multiply(a, b),
        ),
        6 => spoken(
            unset(&[owner, constant, bit, b, named]),
            Item::Project(modulus, a),
            Rest::Table,
        ),
        8 => spoken(
            unset(&[modulus, owner, constant, named]),
            Item::Select(bit),
            Rest::Branches(a, b),
        ),
        10 => alone(
            unset(&[modulus, owner, constant, bit, b]),
            Item::Output(named, a),
        ),
        _ => None,
    }
}
