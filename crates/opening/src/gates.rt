// The keys of all parties that a gate's rows give, by its kind. Every row is worked on in the buffer that the keys go to.
ghost use Rattle.std.specs.Prelude.{◌≡◌, ◌+◌, ◌*◌, ◌≤◌, ◌<◌, length};
ghost use Rattle.lists.specs.Blocks.{nth_piece};
ghost use Rattle.session.specs.Sizes.{Vector};
ghost use Rattle.scheme.specs.Opening.{chosen, corrector};
ghost use Rattle.opening.specs.Given.{Rows};
ghost use Rattle.opening.specs.Step.{held, bared_at, table_at, product_at, choice_at};
ghost use Rattle.opening.specs.Ready.{Seated};

use super::row::{add_bare, bare};
use super::turn::Turn;
use lists::{nth_piece, piece};
use pads::Bound;
use residue::add_multiple;
use search::chosen_corrector;

// A table: the row of a's external value, under a's keys.
pub fn open_table(turn: Turn, a: &[u8], ea: u8, rows: &[u8], out: &mut [u8])
    requires seated { Seated turn × (Rows turn.n turn.k turn.modulus rows.now turn.over × (ea < turn.over)) }
    requires vector { Vector turn.n turn.k a.now × Vector turn.n turn.k out.old }
    ensures { out.new ≡ table_at turn rows.now turn.over (held a.now ea) }
{
    let n = turn.n;
    let k = turn.k;
    let row = nth_piece(rows, n * k, usize::from(ea));
    let bound = Bound {
        round: turn.round,
        modulus: turn.over,
        wire: turn.wire,
        component: 0,
    };
    bare(n, k, turn.modulus, bound, a, row, out);
}

// A product: a row of each component, under a's keys and b's.
pub fn open_product(turn: Turn, a: &[u8], ea: u8, b: &[u8], eb: u8, rows: &[u8], out: &mut [u8])
    requires seated { Seated turn × (Rows turn.n turn.k turn.modulus rows.now (2 * turn.modulus) × ((ea < turn.modulus) × (eb < turn.modulus))) }
    requires vector { Vector turn.n turn.k a.now × (Vector turn.n turn.k b.now × Vector turn.n turn.k out.old) }
    ensures { out.new ≡ product_at turn rows.now (held a.now ea) (held b.now eb) }
{
    let n = turn.n;
    let k = turn.k;
    let p = turn.modulus;
    let m = n * k;
    let first = Bound {
        round: turn.round,
        modulus: p,
        wire: turn.wire,
        component: 0,
    };
    let row = nth_piece(rows, m, usize::from(ea));
    bare(n, k, p, first, a, row, &mut *out);
    let next = Bound {
        round: turn.round,
        modulus: p,
        wire: turn.wire,
        component: 1,
    };
    let second = nth_piece(rows, m, usize::from(p) + usize::from(eb));
    add_bare(n, k, p, next, b, second, &mut *out);
    add_multiple(p, eb, a, out);
}

// The chooser's row, under the bit's keys; for 1 the difference's keys are added.
fn open_chooser(turn: Turn, v: &[u8], bit: u8, d: &[u8], rows: &[u8], out: &mut [u8])
    requires seated { Seated turn × (Rows turn.n turn.k turn.modulus rows.now (2 * turn.modulus + 2) × (bit < 2)) }
    requires vector { Vector turn.n turn.k v.now × (Vector turn.n turn.k d.now × Vector turn.n turn.k out.old) }
    ensures { out.new ≡ chosen bit turn.modulus (bared_at turn rows.now 2 0 v.now bit) d.now }
{
    let n = turn.n;
    let k = turn.k;
    let row = nth_piece(rows, n * k, usize::from(bit));
    let bound = Bound {
        round: turn.round,
        modulus: 2,
        wire: turn.wire,
        component: 0,
    };
    bare(n, k, turn.modulus, bound, v, row, &mut *out);
    if bit == 0 {
        return;
    }
    add_multiple(turn.modulus, 1, d, out);
}

// The row of the corrector that the bit's external value names. The correctors' rows stand behind the chooser's two, `p` rows each.
fn corrector_row(rows: &[u8], m: usize, p: u8, bit: u8, alpha: u8) -> &[u8]
    requires { (length rows.now ≡ (2 * p + 2) * m) × ((alpha < p) × (m ≤ 1024)) }
    ensures { (result.now ≡ nth_piece rows.now m (corrector p bit alpha)) × (length result.now ≡ m) }
{
    let width = usize::from(p) * m;
    let from = 2 * m;
    let first = piece(rows, from, width);
    let second = piece(rows, from + width, width);
    chosen_corrector(first, second, bit, usize::from(alpha) * m, m)
}

// A choice: the chooser's row, under the bit's keys, and the row of the corrector that the bit's external value names, under those
// of the difference `d`.
pub fn open_choice(turn: Turn, v: &[u8], bit: u8, d: &[u8], alpha: u8, rows: &[u8], out: &mut [u8])
    requires seated { Seated turn × (Rows turn.n turn.k turn.modulus rows.now (2 * turn.modulus + 2) × ((bit < 2) × (alpha < turn.modulus))) }
    requires vector { Vector turn.n turn.k v.now × (Vector turn.n turn.k d.now × Vector turn.n turn.k out.old) }
    ensures { out.new ≡ choice_at turn rows.now (held v.now bit) (held d.now alpha) }
{
    let n = turn.n;
    let k = turn.k;
    let p = turn.modulus;
    open_chooser(turn, v, bit, d, rows, &mut *out);
    let row = corrector_row(rows, n * k, p, bit, alpha);
    let bound = Bound {
        round: turn.round,
        modulus: p,
        wire: turn.wire,
        component: 1 + bit,
    };
    add_bare(n, k, p, bound, d, row, out);
}
