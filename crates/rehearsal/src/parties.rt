// A call made by each party in turn, on its part of the lent memory.
ghost use Rattle.std.specs.Prelude.{◌≡◌, ◌*◌, ◌≤◌, length};
ghost use Rattle.rehearsal.specs.Turns.{KeysOfAll, OpenedByAll, DecodedByAll};

use engine::{lupiknam_decode, lupiknam_input_keys, lupiknam_open};
use lists::piece;

// At each party its input keys, from its contribution of `size` bytes; `each` bytes of `mine` are a party's.
pub fn keys_of_all(
    file: &[u8],
    n: u32,
    k: u32,
    contributions: &[u8],
    size: usize,
    externals: &[u8],
    each: usize,
    mine: &mut [u8],
)
    requires { (length contributions.now ≡ n * size) × (length mine.old ≡ n * each) }
    ensures { KeysOfAll file.now n k contributions.now size externals.now each mine.old mine.new }
{
    let mut from = 0;
    let mut at = 0;
    let mut party = 0;
    while party < n {
        let contribution = piece(contributions, from, size);
        let to = at + each;
        let answer = lupiknam_input_keys(
            file,
            n,
            k,
            party,
            contribution,
            externals,
            &mut mine[at..to],
        );
        from += size;
        at = to;
        party += 1;
    }
}

// How many parties there are, how long their keys, and the round; how many bytes a party has of contributions, of wires' keys and of wires' external values.
#[derive(Clone, Copy)]
pub struct Shares {
    pub n: u32,
    pub k: u32,
    pub round: u32,
    pub size: usize,
    pub wide: usize,
    pub long: usize,
}

// At each party opening, from its contribution.
pub fn open_all(
    file: &[u8],
    shares: Shares,
    contributions: &[u8],
    externals: &[u8],
    keys: &[u8],
    rows: &[u8],
    wkeys: &mut [u8],
    wexternals: &mut [u8],
)
    requires { (length contributions.now ≡ shares.n * shares.size) × ((length wkeys.old ≡ shares.n * shares.wide)
        × ((length wexternals.old ≡ shares.n * shares.long) × (shares.n ≤ 8))) }
    ensures { OpenedByAll file.now shares.n shares.k shares.round contributions.now shares.size externals.now keys.now
        rows.now shares.wide wkeys.old shares.long wexternals.old wkeys.new wexternals.new }
{
    let n = shares.n;
    let k = shares.k;
    let round = shares.round;
    let size = shares.size;
    let wide = shares.wide;
    let long = shares.long;
    let mut from = 0;
    let mut at = 0;
    let mut place = 0;
    let mut party = 0;
    while party < n {
        let past = from + size;
        let contribution = piece(contributions, from, size);
        let to = at + wide;
        let end = place + long;
        let answer = lupiknam_open(
            file,
            n,
            k,
            party,
            round,
            contribution,
            externals,
            keys,
            rows,
            &mut wkeys[at..to],
            &mut wexternals[place..end],
        );
        from = past;
        at = to;
        place = end;
        party += 1;
    }
}

// At each party decoding, from `long` external values of its own and its sheet of the output masks; `each` bytes of `masks` and of `results` are a party's.
pub fn decode_all(
    file: &[u8],
    n: u32,
    externals: &[u8],
    long: usize,
    masks: &[u8],
    each: usize,
    results: &mut [u8],
)
    requires { (length externals.now ≡ n * long) × ((length masks.now ≡ n * each) × (length results.old ≡ n * each)) }
    ensures { DecodedByAll file.now n externals.now long masks.now each results.old results.new }
{
    let mut from = 0;
    let mut at = 0;
    let mut party = 0;
    while party < n {
        let external = piece(externals, from, long);
        let sheet = piece(masks, at, each);
        let to = at + each;
        let answer = lupiknam_decode(file, n, party, external, sheet, &mut results[at..to]);
        from += long;
        at = to;
        party += 1;
    }
}
