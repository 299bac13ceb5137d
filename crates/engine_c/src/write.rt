// Records written as a circuit file, and taken back.
ghost use Rattle.writer.specs.Call.{WriteCall, RecordsCall};

use engine::Reported;
use writer::Record;

#[unsafe(no_mangle)]
pub extern "C" fn lupiknam_write(
    records: &[Record],
    tables: &[u8],
    file: &mut [u8],
    words: &mut u32,
) -> Reported
    ensures { WriteCall records.now tables.now file.old words.old result.number result.place file.new words.new }
{
    engine::lupiknam_write(records, tables, file, words)
}

#[unsafe(no_mangle)]
pub extern "C" fn lupiknam_records(
    file: &[u8],
    records: &mut [Record],
    tables: &mut [u8],
) -> Reported
    ensures { RecordsCall file.now records.old tables.old result.number result.place records.new tables.new }
{
    engine::lupiknam_records(file, records, tables)
}
