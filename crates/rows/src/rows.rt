// One row, and the rows of one component of a gate.
ghost use Rattle.std.specs.Prelude.{◌≡◌, ◌<◌, length};
ghost use Rattle.residue.specs.Vector.{key_v};
ghost use Rattle.session.specs.Sizes.{Vector};
ghost use Rattle.rows.specs.Made.{Room, Four, row_of, component_rows};

use lists::scratch;
use pads::Bound;
use residue::key_of;

// What rows are made for: `n` parties, key length `k`, receiving modulus `q`, and what the pads are bound to.
#[derive(Clone, Copy)]
pub struct Row {
    pub n: usize,
    pub k: usize,
    pub q: u8,
    pub bound: Bound,
}

// Vectors by a number e: base + e·step.
#[derive(Clone, Copy)]
pub struct Line<'a> {
    pub base: &'a [u8],
    pub step: &'a [u8],
}

// The row with message base + c·given under `keys`.
pub fn put_row(row: Row, keys: &[u8], base: &[u8], c: u8, given: &[u8], out: &mut [u8])
    requires room { Room row.n row.k row.q out.old 1 }
    requires vector { Vector row.n row.k keys.now × (Vector row.n row.k base.now × Vector row.n row.k given.now) }
    ensures { out.new ≡ row_of row keys.now (key_v row.q base.now c given.now) }
{
    key_of(row.q, base, c, given, &mut *out);
    pads::add_pad_row(row.q, row.bound, row.n, row.k, keys, out);
}

// The row with the message that is number `c` of its line, under the keys that are number `alpha` of theirs, which are made in `work`.
pub fn put_keyed_row(
    row: Row,
    alpha: u8,
    c: u8,
    keys: Line,
    messages: Line,
    work: &mut [u8],
    out: &mut [u8],
)
    requires room { Room row.n row.k row.q out.old 1 }
    requires four { Four row keys.base.now keys.step.now messages.base.now messages.step.now × Vector row.n row.k work.old }
    ensures { out.new ≡ row_of row (key_v row.bound.modulus keys.entry.base.now alpha keys.entry.step.now) (key_v row.q messages.entry.base.now c messages.entry.step.now) }
{
    key_of(row.bound.modulus, keys.base, alpha, keys.step, &mut *work);
    put_row(row, &*work, messages.base, c, messages.step, out);
}

// A row for each alpha below the keys' modulus: its message is number factors[alpha], and it is under the keys of number alpha.
pub fn component_rows(row: Row, factors: [u8; 256], keys: Line, messages: Line, out: &mut [u8])
    requires room { Room row.n row.k row.q out.old row.bound.modulus }
    requires four { Four row keys.base.now keys.step.now messages.base.now messages.step.now }
    ensures { out.new ≡ component_rows row factors keys.entry.base.now keys.entry.step.now messages.entry.base.now messages.entry.step.now }
{
    let m = keys.base.len();
    let mut work = scratch::<1024>();
    let mut at = 0;
    for alpha in 0..row.bound.modulus {
        let to = at + m;
        put_keyed_row(
            row,
            alpha,
            factors[usize::from(alpha)],
            keys,
            messages,
            &mut work[..m],
            &mut out[at..to],
        );
        at = to;
    }
}
