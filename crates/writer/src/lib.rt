// The circuit file written from an editor's records, and taken back to them. A record says items, as a word does, and they are judged by the reader's
// own rules (`words`). The records are walked twice: judged, with nothing touched, and then laid down. specs/Written.antt says what writing comes to.
// Rests on `words`, `circuit` and `session`.

#![tactic(auto)]

mod entry;
mod fields;
mod images;
mod items;
mod laying;
mod listing;
mod pen;
mod settling;
mod speech;
mod steps;
mod table;
mod walk;
mod writing;

pub use entry::Record;
pub use laying::{put_entries, put_word};
pub use listing::list;
pub use pen::Pen;
pub use settling::{lay_end, settle};
pub use walk::over;
pub use writing::write;
