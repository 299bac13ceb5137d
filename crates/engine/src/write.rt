// The calls of an editor: a circuit file written from its records, and taken back to them. They only lend and call.
ghost use Rattle.writer.specs.Call.{WriteCall, RecordsCall};

use super::answer::{Reported, tell};
use writer::{Record, list, write};

// Writes records as a circuit file: the reader's checks on each, 9, 14, 22. They are judged before anything is laid down.
pub fn lupiknam_write(
    records: &[Record],
    tables: &[u8],
    file: &mut [u8],
    words: &mut u32,
) -> Reported
    ensures { WriteCall records.now tables.now file.old words.old result.number result.place file.new words.new }
{
    tell(write(records, tables, file), words)
}

// Takes a circuit file back to records and tables: 1 to 10, 14.
pub fn lupiknam_records(file: &[u8], records: &mut [Record], tables: &mut [u8]) -> Reported
    ensures { RecordsCall file.now records.old tables.old result.number result.place records.new tables.new }
{
    list(file, records, tables).into()
}
