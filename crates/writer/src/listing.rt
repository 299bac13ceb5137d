// The list of a circuit file, its records and its tables: the reader's checks, then the lengths.
ghost use Rattle.checks.specs.Answer.{number_in, place_in};
ghost use Rattle.writer.specs.Call.{RecordsCall};

use super::entry::Record;
use super::fields::put_records;
use super::images::{entries_in, put_tables};
use checks::Answer;
use circuit::read;
use session::lengths_checked;

// The records and tables of a circuit file: 1 to 10, and 14 unless each lent length is exact. Nothing is written where the call is refused.
pub fn list(file: &[u8], records: &mut [Record], tables: &mut [u8]) -> Answer
    ensures { RecordsCall file.now records.old tables.old (number_in result) (place_in result) records.new tables.new }
{
    let circuit = read(file)?;
    lengths_checked(
        &[records.len(), tables.len()],
        &[circuit.made + circuit.given, entries_in(circuit)],
    )?;
    put_records(circuit, records);
    put_tables(circuit, file, tables);
    Ok(())
}
