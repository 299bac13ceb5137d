// Reading a circuit for two: 1 to 10, then 26, and its rows in this form.
ghost use Rattle.std.specs.Prelude.{◌≡◌, Err, IfOk, IfErr};
ghost use Rattle.pair.specs.Bytes.{pair_file_checked};
ghost use Rattle.pair_calls.specs.Counted.{ReadsForTwo, CountsRows};

use checks::Refused;
use circuit::{Circuit, read};
use pair_checks::{rows, selects_checked};

// A circuit that is read, where it has no select.
pub fn read_for_two(file: &[u8]) -> Result<Circuit, Refused>
    ensures ok { IfOk result (λ circuit. ReadsForTwo file.now circuit) }
    ensures err { IfErr result (λ why. pair_file_checked file.now ≡ Err why) }
{
    let circuit = read(file)?;
    selects_checked(file)?;
    Ok(circuit)
}

// The rows of a circuit.
pub fn pair_read(file: &[u8]) -> Result<u32, Refused>
    ensures ok { IfOk result (λ count. CountsRows file.now count) }
    ensures err { IfErr result (λ why. pair_file_checked file.now ≡ Err why) }
{
    Ok(rows(read_for_two(file)?))
}
