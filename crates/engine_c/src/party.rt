// External values, input keys, decoding.
ghost use Rattle.calls.specs.Externals.{ExternalsCall};
ghost use Rattle.calls.specs.InputKeys.{InputKeysCall};
ghost use Rattle.calls.specs.Decode.{DecodeCall};

use engine::Reported;

#[unsafe(no_mangle)]
pub extern "C" fn lupiknam_externals(
    file: &[u8],
    n: u32,
    party: u32,
    values: &[u8],
    masks: &[u8],
    externals: &mut [u8],
) -> Reported
    ensures { ExternalsCall file.now n party values.now masks.now externals.old result.number result.place externals.new }
{
    engine::lupiknam_externals(file, n, party, values, masks, externals)
}

#[unsafe(no_mangle)]
pub extern "C" fn lupiknam_input_keys(
    file: &[u8],
    n: u32,
    k: u32,
    party: u32,
    contribution: &[u8],
    externals: &[u8],
    keys: &mut [u8],
) -> Reported
    ensures { InputKeysCall file.now n k party contribution.now externals.now keys.old result.number result.place keys.new }
{
    engine::lupiknam_input_keys(file, n, k, party, contribution, externals, keys)
}

#[unsafe(no_mangle)]
pub extern "C" fn lupiknam_decode(
    file: &[u8],
    n: u32,
    party: u32,
    externals: &[u8],
    masks: &[u8],
    outputs: &mut [u8],
) -> Reported
    ensures { DecodeCall file.now n party externals.now masks.now outputs.old result.number result.place outputs.new }
{
    engine::lupiknam_decode(file, n, party, externals, masks, outputs)
}
