// A whole round of two: garbling, the input keys, opening, decoding, and plain evaluation beside them.
ghost use Rattle.pair_round.specs.Claim.{Conditions};
ghost use Rattle.pair_rehearsal.specs.Rehearsed.{lent_of, results_of, Rehearsed};

use engine::{
    lupiknam_pair_decode, lupiknam_pair_garble, lupiknam_pair_input_keys, lupiknam_pair_open,
    lupiknam_plain,
};

// Key length, round, and the account that pays.
#[derive(Clone, Copy)]
pub struct Asked {
    pub k: u32,
    pub round: u32,
    pub account: u32,
}

// Where everything passes the checks every call accepts, every wire opens to the key of its value, and decoding gives the plain circuit's outputs. The named account
// of the row meter is charged.
pub fn rehearse(
    file: &[u8],
    asked: Asked,
    draw: &[u8],
    values: &[u8],
    rows: &mut [u8],
    masks: &mut [u8],
    keys: &mut [u8],
    wkeys: &mut [u8],
    wexternals: &mut [u8],
    results: &mut [u8],
    evaluated: &mut [u8],
    meter: &mut [u32; 8],
)
    requires { Conditions file.now asked.k draw.now values.now (record { totals = meter.old; account = asked.account })
        (lent_of rows.old masks.old keys.old wkeys.old wexternals.old results.old evaluated.old) }
    ensures { Rehearsed file.now asked.k asked.round draw.now values.now
        (record { totals = meter.old; account = asked.account })
        (lent_of rows.old masks.old keys.old wkeys.old wexternals.old results.old evaluated.old)
        (results_of rows.new masks.new meter.new keys.new wkeys.new wexternals.new results.new
        evaluated.new) }
{
    let k = asked.k;
    let round = asked.round;
    let garbled = lupiknam_pair_garble(
        file,
        k,
        round,
        asked.account,
        draw,
        &mut *rows,
        &mut *masks,
        &mut *meter,
    );
    let keyed = lupiknam_pair_input_keys(file, k, draw, values, &mut *keys);
    let opened = lupiknam_pair_open(
        file,
        k,
        round,
        &*keys,
        &*rows,
        &mut *wkeys,
        &mut *wexternals,
    );
    let decoded = lupiknam_pair_decode(file, &*wexternals, &*masks, &mut *results);
    let plainly = lupiknam_plain(file, values, &mut *evaluated);
}
