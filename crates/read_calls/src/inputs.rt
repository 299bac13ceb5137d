// How many inputs a party owns, as a call.
ghost use Rattle.std.specs.Prelude.{◌≡◌, Err, IfOk, IfErr};
ghost use Rattle.read_calls.specs.InputsOf.{inputs_of_checked, CountsInputs};

use checks::Refused;
use circuit::read;
use session::{partakers_checked, parties_checked, party_checked};

// How many inputs the party owns, or why the call is refused.
pub fn inputs_of(file: &[u8], n: u32, party: u32) -> Result<u32, Refused>
    ensures ok { IfOk result (λ count. CountsInputs file.now n party count) }
    ensures err { IfErr result (λ why. inputs_of_checked file.now n party ≡ Err why) }
{
    let circuit = read(file)?;
    parties_checked(n)?;
    party_checked(n, party)?;
    partakers_checked(circuit, n)?;
    Ok(counts::inputs_of(circuit, party))
}
