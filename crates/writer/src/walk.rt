// All records, one after another.
ghost use Rattle.std.specs.Prelude.{◌≡◌, length};
ghost use Rattle.writer.specs.Walked.{Walked};

use super::entry::Record;
use super::pen::Pen;
use super::steps::{begin, step};

// The head, and every record from the first to the last; in the pass that lays, their words too. Once one is refused the others change nothing.
pub fn over(records: &[Record], tables: &[u8], moduli: &mut [u8], file: &mut [u8], lay: bool) -> Pen
    requires { length moduli.old ≡ 1024 }
    ensures { Walked lay tables.now file.old records.now (length records.now) result moduli.new file.new }
{
    let mut pen = begin(file, lay);
    for entry in records {
        step(*entry, tables, moduli, file, &mut pen, lay);
    }
    pen
}
