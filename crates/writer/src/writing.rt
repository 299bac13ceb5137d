// A circuit file written from records.
ghost use Rattle.writer.specs.Closing.{Writes};

use super::entry::Record;
use super::settling::{lay_end, settle};
use super::walk::over;
use checks::Refused;
use lists::scratch;

// Writes records as a circuit file: the reader's checks on each, 9, 14, 22. They are judged before anything is laid down. Refused or not, the contract gives
// the answer, the number of words and every byte of the file.
pub fn write(records: &[Record], tables: &[u8], file: &mut [u8]) -> Result<u32, Refused>
    ensures { Writes records.now tables.now file.old result file.new }
{
    let mut moduli = scratch::<1024>();
    let judged = over(records, tables, &mut moduli, file, false);
    let words = settle(judged, tables.len(), file.len())?;
    let laid = over(records, tables, &mut moduli, file, true);
    lay_end(file, laid.at);
    Ok(words)
}
