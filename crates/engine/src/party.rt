// The small calls of a round: external values, input keys, decoding.
ghost use Rattle.calls.specs.Externals.{ExternalsCall};
ghost use Rattle.calls.specs.InputKeys.{InputKeysCall};
ghost use Rattle.calls.specs.Decode.{DecodeCall};

use super::answer::Reported;
use party_calls::{decode, input_keys};

// The external values of a party's own inputs, from their values and masks: 1 to 10, 11 for n, 12, 13, 28, 14, 15.
pub fn lupiknam_externals(
    file: &[u8],
    n: u32,
    party: u32,
    values: &[u8],
    masks: &[u8],
    externals: &mut [u8],
) -> Reported
    ensures { ExternalsCall file.now n party values.now masks.now externals.old result.number result.place externals.new }
{
    party_calls::externals(file, n, party, values, masks, externals).into()
}

// A party's keys on all inputs, from its contribution and the external values: 1 to 13, 28, 14 to 17.
pub fn lupiknam_input_keys(
    file: &[u8],
    n: u32,
    k: u32,
    party: u32,
    contribution: &[u8],
    externals: &[u8],
    keys: &mut [u8],
) -> Reported
    ensures { InputKeysCall file.now n k party contribution.now externals.now keys.old result.number result.place keys.new }
{
    input_keys(file, n, k, party, contribution, externals, keys).into()
}

// The values of the outputs that a party may read, from external values and its sheet of output masks, 255 for the others: 1 to 10, 11 for n, 12, 13, 28, 14,
// 15.
pub fn lupiknam_decode(
    file: &[u8],
    n: u32,
    party: u32,
    externals: &[u8],
    masks: &[u8],
    outputs: &mut [u8],
) -> Reported
    ensures { DecodeCall file.now n party externals.now masks.now outputs.old result.number result.place outputs.new }
{
    decode(file, n, party, externals, masks, outputs).into()
}
