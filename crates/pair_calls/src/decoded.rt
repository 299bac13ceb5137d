// Decoding in the two-party form. There is one sheet of output masks, so the parties that outputs name are passed over: who holds it reads every output.
ghost use Rattle.checks.specs.Answer.{number_in, place_in};
ghost use Rattle.pair.specs.Decode.{PairDecodeCall};

use checks::Answer;
use circuit::read;
use lists::zeros;
use party_calls::decode_behind;

// What the outputs' external values stand for: one byte for each output. Outputs that name nobody are for everyone. Refused or not, the contract gives the
// answer and every byte of `results`.
pub fn pair_decode(file: &[u8], externals: &[u8], masks: &[u8], results: &mut [u8]) -> Answer
    ensures { PairDecodeCall file.now externals.now masks.now results.old
        (number_in result) (place_in result) results.new }
{
    let mut circuit = read(file)?;
    circuit.named = zeros();
    decode_behind(circuit, 0, externals, masks, results)
}
