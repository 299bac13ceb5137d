// The zero key and the rows of one wire, by the kind of its gate, from the draw and from the zero keys of lower wires.
ghost use Rattle.std.specs.Prelude.{◌≡◌, ◌+◌, ◌-◌, ◌*◌, ◌≤◌, ◌<◌, length};
ghost use Rattle.lists.specs.Blocks.{part};
ghost use Rattle.residue.specs.Vector.{add_v, mul_v};
ghost use Rattle.pair_garbling.specs.Halves.{key_by, rows_by};
ghost use Rattle.pair_garbling.specs.Source.{Ranged, Stands, Offset, OfPair, OfTable, Sourced, half_in, zero_here, offset_here};
ghost use Rattle.pair_garbling.specs.Source.{table_here, product_key, product_rows, key_here, rows_here};

use super::gates::{product_halves, table_half};
use super::halves::Half;
use super::source::Source;
use super::turn::Turn;
use lists::{nth_piece, piece};
use words::{Gate, Pair, Projection, Scaling};

fn put_input(turn: Turn, draw: &[u8], key: &mut [u8])
    requires { (turn.at + turn.k ≤ length draw.now) × (length key.old ≡ turn.k) }
    ensures { key.new ≡ part draw.now turn.at turn.k }
{
    key.copy_from_slice(piece(draw, turn.at, turn.k));
}

fn put_sum(p: u8, k: usize, gate: Pair, keys: &[u8], key: &mut [u8])
    requires { (0 < p) × (OfPair k keys.now gate × (length key.old ≡ k)) }
    ensures { key.new ≡ add_v p (zero_here k keys.now gate.a) (zero_here k keys.now gate.b) }
{
    let a = nth_piece(keys, k, usize::from(gate.a));
    let b = nth_piece(keys, k, usize::from(gate.b));
    residue::key_of(p, a, 1, b, key);
}

fn put_multiple(p: u8, k: usize, gate: Scaling, keys: &[u8], key: &mut [u8])
    requires { (0 < p) × (Stands k keys.now gate.a × (length key.old ≡ k)) }
    ensures { key.new ≡ mul_v p gate.constant (zero_here k keys.now gate.a) }
{
    let a = nth_piece(keys, k, usize::from(gate.a));
    key.copy_from_slice(a);
    residue::scale(p, gate.constant, key);
}

// A projection of a wire of modulus `q`.
fn put_table(
    g: Projection,
    q: u8,
    turn: Turn,
    source: Source,
    keys: &[u8],
    key: &mut [u8],
    rows: &mut [u8],
)
    requires ranged { Ranged turn × OfTable turn source.file.now source.draw.now source.ranks.now keys.now g q }
    requires key_len { (length key.old ≡ turn.k) × (length rows.old ≡ (q - 1) * turn.k) }
    ensures { (key.new ≡ key_by (half_in turn q 0) (table_here turn source.entry.file.now source.entry.draw.now source.entry.ranks.now keys.now g q))
        × (rows.new ≡ rows_by (half_in turn q 0) (table_here turn source.entry.file.now source.entry.draw.now source.entry.ranks.now keys.now g q)) }
{
    let half = Half {
        at: turn.half(q, 0),
        zero: nth_piece(keys, turn.k, usize::from(g.a)),
        offset: source.offset(q, turn.k),
        vector: source.offset(turn.modulus, turn.k),
    };
    table_half(half, g.table, source.file, key, rows);
}

// A product of two wires of the modulus that it has itself.
fn put_product(g: Pair, turn: Turn, source: Source, keys: &[u8], key: &mut [u8], rows: &mut [u8])
    requires ranged { Ranged turn × (OfPair turn.k keys.now g × Offset turn.k source.draw.now source.ranks.now turn.modulus) }
    requires key_len { (length key.old ≡ turn.k) × (length rows.old ≡ 2 * (turn.modulus - 1) * turn.k) }
    ensures { (key.new ≡ product_key turn (zero_here turn.k keys.now g.a) (zero_here turn.k keys.now g.b)
        (offset_here turn.k source.entry.draw.now source.entry.ranks.now turn.modulus))
        × (rows.new ≡ product_rows turn (zero_here turn.k keys.now g.a) (zero_here turn.k keys.now g.b)
        (offset_here turn.k source.entry.draw.now source.entry.ranks.now turn.modulus)) }
{
    let a = nth_piece(keys, turn.k, usize::from(g.a));
    let b = nth_piece(keys, turn.k, usize::from(g.b));
    let offset = source.offset(turn.modulus, turn.k);
    product_halves(turn, a, b, offset, key, rows);
}

// By the kind of gate; a select is refused before, and leaves zeros.
pub fn put_gate(
    gate: Gate,
    turn: Turn,
    source: Source,
    keys: &[u8],
    key: &mut [u8],
    rows: &mut [u8],
)
    requires { Sourced turn source.file.now source.draw.now source.ranks.now source.moduli.now keys.now gate rows.old × (length key.old ≡ turn.k) }
    ensures { (key.new ≡ key_here turn source.entry.file.now source.entry.draw.now source.entry.ranks.now source.entry.moduli.now keys.now gate)
        × (rows.new ≡ rows_here turn source.entry.file.now source.entry.draw.now source.entry.ranks.now source.entry.moduli.now keys.now gate) }
{
    match gate {
        Gate::Input(_) => put_input(turn, source.draw, key),
        Gate::Add(pair) => put_sum(turn.modulus, turn.k, pair, keys, key),
        Gate::Scale(scaling) => put_multiple(turn.modulus, turn.k, scaling, keys, key),
        Gate::Multiply(pair) => put_product(pair, turn, source, keys, key, rows),
        Gate::Project(g) => {
            let q = source.moduli[usize::from(g.a)];
            put_table(g, q, turn, source, keys, key, rows);
        }
        Gate::Select(_) => key.fill(0),
    }
}
