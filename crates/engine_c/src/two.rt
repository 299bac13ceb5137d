// The two-party form.
ghost use Rattle.pair.specs.Read.{PairReadCall};
ghost use Rattle.pair.specs.Garble.{PairGarbleCall};
ghost use Rattle.pair.specs.InputKeys.{PairInputKeysCall};
ghost use Rattle.pair.specs.Open.{PairOpenCall};
ghost use Rattle.pair.specs.Decode.{PairDecodeCall};

use engine::Reported;

#[unsafe(no_mangle)]
pub extern "C" fn lupiknam_pair_read(file: &[u8], rows: &mut u32) -> Reported
    ensures { PairReadCall file.now rows.old result.number result.place rows.new }
{
    engine::lupiknam_pair_read(file, rows)
}

#[unsafe(no_mangle)]
pub extern "C" fn lupiknam_pair_garble(
    file: &[u8],
    k: u32,
    round: u32,
    account: u32,
    draw: &[u8],
    rows: &mut [u8],
    output_masks: &mut [u8],
    meter: &mut [u32; 8],
) -> Reported
    ensures { PairGarbleCall file.now k round draw.now rows.old output_masks.old
        (record { totals = meter.old; account = account }) result.number result.place rows.new output_masks.new meter.new }
{
    engine::lupiknam_pair_garble(file, k, round, account, draw, rows, output_masks, meter)
}

#[unsafe(no_mangle)]
pub extern "C" fn lupiknam_pair_input_keys(
    file: &[u8],
    k: u32,
    draw: &[u8],
    values: &[u8],
    keys: &mut [u8],
) -> Reported
    ensures { PairInputKeysCall file.now k draw.now values.now keys.old result.number result.place keys.new }
{
    engine::lupiknam_pair_input_keys(file, k, draw, values, keys)
}

#[unsafe(no_mangle)]
pub extern "C" fn lupiknam_pair_open(
    file: &[u8],
    k: u32,
    round: u32,
    keys: &[u8],
    rows: &[u8],
    wire_keys: &mut [u8],
    wire_externals: &mut [u8],
) -> Reported
    ensures { PairOpenCall file.now k round keys.now rows.now wire_keys.old wire_externals.old
        result.number result.place wire_keys.new wire_externals.new }
{
    engine::lupiknam_pair_open(file, k, round, keys, rows, wire_keys, wire_externals)
}

#[unsafe(no_mangle)]
pub extern "C" fn lupiknam_pair_decode(
    file: &[u8],
    externals: &[u8],
    masks: &[u8],
    outputs: &mut [u8],
) -> Reported
    ensures { PairDecodeCall file.now externals.now masks.now outputs.old result.number result.place outputs.new }
{
    engine::lupiknam_pair_decode(file, externals, masks, outputs)
}
