// A whole round: every call that document 01 names, for all parties.
ghost use Rattle.round.specs.Claim.{Conditions};
ghost use Rattle.rehearsal.specs.Rehearsed.{lent_of, results_of, Whole, Rehearsed};

use super::hosts::put_keys_by_input;
use super::masking::mask_all;
use super::memory::sizes_of;
use super::parties::{Shares, decode_all, keys_of_all, open_all};
use engine::{lupiknam_garble, lupiknam_plain};
use session::AskedSession;

// Under demand 3's conditions every call accepts, each party opens value plus mask on every wire, and decodes the plain circuit's outputs. The named
// account of the row meter is charged.
pub fn rehearse(
    file: &[u8],
    asked: AskedSession,
    contributions: &[u8],
    values: &[u8],
    rows: &mut [u8],
    inputs: &mut [u8],
    outputs: &mut [u8],
    externals: &mut [u8],
    mine: &mut [u8],
    keys: &mut [u8],
    wkeys: &mut [u8],
    wexternals: &mut [u8],
    results: &mut [u8],
    evaluated: &mut [u8],
    account: u32,
    meter: &mut [u32; 8],
)
    requires { Conditions file.now asked.n asked.k contributions.now values.now
        (record { totals = meter.old; account = account })
        (lent_of file.now asked.n asked.k rows.old inputs.old outputs.old mine.old wkeys.old wexternals.old results.old evaluated.old)
        × Whole file.now asked.n asked.k externals.old mine.old keys.old wkeys.old wexternals.old results.old }
    ensures { Rehearsed file.now asked.n asked.k asked.round contributions.now values.now
        (record { totals = meter.old; account = account })
        (lent_of file.now asked.n asked.k rows.old inputs.old outputs.old mine.old
        wkeys.old wexternals.old results.old evaluated.old)
        (results_of file.now asked.n asked.k values.now rows.new inputs.new outputs.new meter.new mine.new
        wkeys.new wexternals.new results.new evaluated.new)
        externals.new keys.new }
{
    let n = asked.n;
    let k = asked.k;
    let round = asked.round;
    let sizes = sizes_of(file, n, k);
    let own = sizes.own;
    let made = sizes.made;
    let given = sizes.given;
    let size = sizes.size;
    let each = sizes.each;
    let wide = sizes.wide;
    let key = k as usize;
    let garbled = lupiknam_garble(
        file,
        n,
        k,
        round,
        account,
        contributions,
        &mut *rows,
        &mut *inputs,
        &mut *outputs,
        &mut *meter,
    );
    mask_all(file, n, values, &*inputs, &mut *externals);
    keys_of_all(
        file,
        n,
        k,
        contributions,
        size,
        &*externals,
        each,
        &mut *mine,
    );
    put_keys_by_input(n, key, own, each, &*mine, &mut *keys);
    let shares = Shares {
        n,
        k,
        round,
        size,
        wide,
        long: made,
    };
    open_all(
        file,
        shares,
        contributions,
        &*externals,
        &*keys,
        &*rows,
        &mut *wkeys,
        &mut *wexternals,
    );
    decode_all(file, n, &*wexternals, made, &*outputs, given, &mut *results);
    let plainly = lupiknam_plain(file, values, &mut *evaluated);
}
