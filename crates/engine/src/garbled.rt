// Garbling, and opening what was garbled.
ghost use Rattle.calls.specs.Garble.{GarbleCall};
ghost use Rattle.calls.specs.Open.{OpenCall};

use super::answer::Reported;
use row_calls::{garble, open_rows};
use session::{AskedSeat, AskedSession};

// Rows, input masks and output masks of a round, from all contributions, and the named account charged: 1 to 10, 11, 13, 28, 14, 25, 16, 17, 21.
pub fn lupiknam_garble(
    file: &[u8],
    n: u32,
    k: u32,
    round: u32,
    account: u32,
    contributions: &[u8],
    rows: &mut [u8],
    input_masks: &mut [u8],
    output_masks: &mut [u8],
    meter: &mut [u32; 8],
) -> Reported
    ensures { GarbleCall file.now n k round contributions.now rows.old input_masks.old output_masks.old
        (record { totals = meter.old; account = account }) result.number result.place rows.new input_masks.new output_masks.new meter.new }
{
    let asked = AskedSession { n, k, round };
    garble(
        file,
        asked,
        contributions,
        rows,
        input_masks,
        output_masks,
        account,
        meter,
    )
    .into()
}

// The keys and external value of every wire at a party, from the rows of a round: 1 to 13, 28, 14 to 20.
pub fn lupiknam_open(
    file: &[u8],
    n: u32,
    k: u32,
    party: u32,
    round: u32,
    contribution: &[u8],
    externals: &[u8],
    keys: &[u8],
    rows: &[u8],
    wire_keys: &mut [u8],
    wire_externals: &mut [u8],
) -> Reported
    ensures { OpenCall file.now n k party round contribution.now externals.now keys.now rows.now
        wire_keys.old wire_externals.old result.number result.place wire_keys.new wire_externals.new }
{
    let asked = AskedSeat { n, k, party, round };
    open_rows(
        file,
        asked,
        contribution,
        externals,
        keys,
        rows,
        wire_keys,
        wire_externals,
    )
    .into()
}
