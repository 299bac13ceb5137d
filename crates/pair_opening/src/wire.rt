// One wire, by its gate.
ghost use Rattle.std.specs.Prelude.{◌≡◌, length};
ghost use Rattle.lists.specs.Blocks.{nth_piece};
ghost use Rattle.residue.specs.Vector.{add_v, mul_v};
ghost use Rattle.pair_opening.specs.Ready.{Seated, KeyHeld, PairHeld, ProductReady, TableReady, Ready};
ghost use Rattle.pair_opening.specs.Step.{key_in, table_at, product_at, open_at};

use super::half::open_half;
use super::product::open_product;
use super::turn::Turn;
use lists::nth_piece;
use residue::{key_of, scale};
use words::{Gate, Pair, Projection, Scaling};

// An input's key is given.
fn input(turn: Turn, keys: &[u8], out: &mut [u8])
    requires { KeyHeld turn keys.now turn.wire × (length out.old ≡ turn.k) }
    ensures { out.new ≡ nth_piece keys.now turn.k turn.wire }
{
    out.copy_from_slice(nth_piece(keys, turn.k, turn.wire as usize));
}

fn sum(turn: Turn, g: Pair, wkeys: &[u8], out: &mut [u8])
    requires { Seated turn × (PairHeld turn wkeys.now g × (length out.old ≡ turn.k)) }
    ensures { out.new ≡ add_v turn.modulus (key_in turn wkeys.now g.a) (key_in turn wkeys.now g.b) }
{
    let a = nth_piece(wkeys, turn.k, usize::from(g.a));
    let b = nth_piece(wkeys, turn.k, usize::from(g.b));
    key_of(turn.modulus, a, 1, b, out);
}

fn multiple(turn: Turn, g: Scaling, wkeys: &[u8], out: &mut [u8])
    requires { Seated turn × (KeyHeld turn wkeys.now g.a × (length out.old ≡ turn.k)) }
    ensures { out.new ≡ mul_v turn.modulus g.constant (key_in turn wkeys.now g.a) }
{
    let a = nth_piece(wkeys, turn.k, usize::from(g.a));
    out.copy_from_slice(a);
    scale(turn.modulus, g.constant, out);
}

fn by_product(turn: Turn, g: Pair, rows: &[u8], wkeys: &[u8], out: &mut [u8])
    requires { Seated turn × (ProductReady turn rows.now wkeys.now g × (length out.old ≡ turn.k)) }
    ensures { out.new ≡ product_at turn rows.now (key_in turn wkeys.now g.a) (key_in turn wkeys.now g.b) }
{
    let a = nth_piece(wkeys, turn.k, usize::from(g.a));
    let b = nth_piece(wkeys, turn.k, usize::from(g.b));
    open_product(turn, a, b, rows, out);
}

// A projection is one half, under a's key.
fn by_table(turn: Turn, g: Projection, rows: &[u8], wkeys: &[u8], out: &mut [u8])
    requires { Seated turn × (TableReady turn rows.now wkeys.now g × (length out.old ≡ turn.k)) }
    ensures { out.new ≡ table_at turn rows.now (key_in turn wkeys.now g.a) }
{
    let a = nth_piece(wkeys, turn.k, usize::from(g.a));
    open_half(turn.half(turn.over, 0), a, rows, out);
}

// The key of the wire at hand. `rows` are those of its own gate, `wkeys` the keys of lower wires. A select is refused before: its key is all zero.
pub fn open_wire(turn: Turn, gate: Gate, keys: &[u8], rows: &[u8], wkeys: &[u8], out: &mut [u8])
    requires { Seated turn × (Ready turn keys.now rows.now wkeys.now gate × (length out.old ≡ turn.k)) }
    ensures { out.new ≡ open_at turn keys.now rows.now wkeys.now gate }
{
    match gate {
        Gate::Input(_) => input(turn, keys, out),
        Gate::Add(g) => sum(turn, g, wkeys, out),
        Gate::Scale(g) => multiple(turn, g, wkeys, out),
        Gate::Multiply(g) => by_product(turn, g, rows, wkeys, out),
        Gate::Project(g) => by_table(turn, g, rows, wkeys, out),
        Gate::Select(_) => out.fill(0),
    }
}
