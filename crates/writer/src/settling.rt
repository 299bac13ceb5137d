// What is left to judge after the last record, and the end of the file.
ghost use Rattle.std.specs.Prelude.{◌≡◌, ◌<◌, ltb};
ghost use Rattle.words.specs.Encode.{word_of};
ghost use Rattle.writer.specs.Desk.{put_word};
ghost use Rattle.writer.specs.Settling.{Fair, some_given_by, Settles};

use super::laying::lay_word;
use super::pen::Pen;
use checks::{Refusal, Refused};
use words::{Item, encode};

// After the last record: 9, entries left over, and 22 last; else how many words the file has.
fn settled_at(judged: Pen, tables: usize, file: usize) -> Result<u32, Refused>
    requires { Fair judged }
    ensures { result ≡ some_given_by judged tables file (ltb 0 judged.given) }
{
    let place = judged.made + judged.given;
    if judged.given == 0 {
        return Err(Refusal::NoOutput.at(place));
    }
    if judged.taken < tables {
        return Err(Refusal::WrongLength.at(place));
    }
    let words = judged.at + 1;
    if file < 4 * words {
        return Err(Refusal::TooShort.at(0));
    }
    Ok(words as u32)
}

// What the records that were judged come to, with tables and a file of these lengths.
pub fn settle(judged: Pen, tables: usize, file: usize) -> Result<u32, Refused>
    requires { Fair judged }
    ensures { Settles judged tables file result }
{
    judged.answer?;
    settled_at(judged, tables, file)
}

// The end word, behind the words of all records.
pub fn lay_end(file: &mut [u8], at: usize)
    requires { at < 900000 }
    ensures { file.new ≡ put_word file.old at (word_of Item.End) }
{
    lay_word(file, at, encode(Item::End), true);
}
