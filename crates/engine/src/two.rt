// The calls of the two-party form: one side garbles, the other opens. It passes over the parties that outputs name.
ghost use Rattle.pair.specs.Read.{PairReadCall};
ghost use Rattle.pair.specs.Garble.{PairGarbleCall};
ghost use Rattle.pair.specs.InputKeys.{PairInputKeysCall};
ghost use Rattle.pair.specs.Open.{PairOpenCall};
ghost use Rattle.pair.specs.Decode.{PairDecodeCall};

use super::answer::{Reported, tell};
use pair_calls::{AskedRound, pair_decode, pair_garble, pair_input_keys, pair_open, pair_read};

// The rows that a circuit has in the two-party form: 1 to 10, 26.
pub fn lupiknam_pair_read(file: &[u8], rows: &mut u32) -> Reported
    ensures { PairReadCall file.now rows.old result.number result.place rows.new }
{
    tell(pair_read(file), rows)
}

// Rows and output masks of a round, from what the garbler drew, and the named account charged: 1 to 10, 26, 11 for k, 13, 14, 25, 16, 27, 21.
pub fn lupiknam_pair_garble(
    file: &[u8],
    k: u32,
    round: u32,
    account: u32,
    draw: &[u8],
    rows: &mut [u8],
    output_masks: &mut [u8],
    meter: &mut [u32; 8],
) -> Reported
    ensures { PairGarbleCall file.now k round draw.now rows.old output_masks.old
        (record { totals = meter.old; account = account }) result.number result.place rows.new output_masks.new meter.new }
{
    let asked = AskedRound { k, round };
    pair_garble(file, asked, draw, rows, output_masks, account, meter).into()
}

// The keys of all inputs, from what the garbler drew and one value per input: 1 to 10, 26, 11 for k, 13, 14, 15, 16, 27.
pub fn lupiknam_pair_input_keys(
    file: &[u8],
    k: u32,
    draw: &[u8],
    values: &[u8],
    keys: &mut [u8],
) -> Reported
    ensures { PairInputKeysCall file.now k draw.now values.now keys.old result.number result.place keys.new }
{
    pair_input_keys(file, k, draw, values, keys).into()
}

// The key and the external value of every wire, from the input keys and the rows of a round: 1 to 10, 26, 11 for k, 13, 14, 18.
pub fn lupiknam_pair_open(
    file: &[u8],
    k: u32,
    round: u32,
    keys: &[u8],
    rows: &[u8],
    wire_keys: &mut [u8],
    wire_externals: &mut [u8],
) -> Reported
    ensures { PairOpenCall file.now k round keys.now rows.now wire_keys.old wire_externals.old
        result.number result.place wire_keys.new wire_externals.new }
{
    let asked = AskedRound { k, round };
    pair_open(file, asked, keys, rows, wire_keys, wire_externals).into()
}

// The outputs' values, from external values and output masks: 1 to 10, 14, 15.
pub fn lupiknam_pair_decode(
    file: &[u8],
    externals: &[u8],
    masks: &[u8],
    outputs: &mut [u8],
) -> Reported
    ensures { PairDecodeCall file.now externals.now masks.now outputs.old result.number result.place outputs.new }
{
    pair_decode(file, externals, masks, outputs).into()
}
