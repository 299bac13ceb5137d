// The halves of gates: a projection's one, a product's two. Masks are reduced here, so nothing is asked of them.
ghost use Rattle.std.specs.Prelude.{◌≡◌, ◌-◌, ◌*◌, length};
ghost use Rattle.residue.specs.Vector.{add_v};
ghost use Rattle.counts.specs.declared.recipe.Images.TheVariants.{File};
ghost use Rattle.counts.specs.Images.{ImagesFit};
ghost use Rattle.pair_garbling.specs.Halves.{Fits, Vectors, table_of, first_of, second_of, key_by, rows_by};
ghost use Rattle.pair_garbling.specs.Source.{Ranged, Three, product_key, product_rows};

use super::halves::{Half, make_half};
use super::turn::Turn;
use counts::Images;
use lists::scratch;
use residue::{add_multiple, mul};
use rows::{linear_factors, table_factors};

// A projection, by the table at this word of the file: T(v) times the vector.
pub fn table_half(half: Half, table: u32, file: &[u8], key: &mut [u8], out: &mut [u8])
    requires fits { Fits half.at × (Vectors half.at.k half.zero.now half.offset.now half.vector.now key.old × (length out.old ≡ (half.at.under - 1) * half.at.k)) }
    requires images_fit { ImagesFit file.now (File table) half.at.under half.at.modulus }
    ensures { (key.new ≡ key_by half.entry.at (table_of half.entry.at file.now table half.entry.zero.now half.entry.offset.now half.entry.vector.now))
        × (out.new ≡ rows_by half.entry.at (table_of half.entry.at file.now table half.entry.zero.now half.entry.offset.now half.entry.vector.now)) }
{
    let q = half.at.under;
    let mask = mul(q, 1, half.zero[0]);
    let factors = table_factors(file, Images::File(table), q, half.at.modulus, mask, 0);
    make_half(half, factors, key, out);
}

// A product's first half, under a's keys: minus b's mask times a's value, times the offset, which is its vector.
fn first_half(half: Half, other: u8, key: &mut [u8], out: &mut [u8])
    requires fits { Fits half.at × (Vectors half.at.k half.zero.now half.offset.now half.vector.now key.old × (length out.old ≡ (half.at.under - 1) * half.at.k)) }
    requires under_value { half.at.under ≡ half.at.modulus }
    ensures { (key.new ≡ key_by half.entry.at (first_of half.entry.at other half.entry.zero.now half.entry.offset.now half.entry.vector.now))
        × (out.new ≡ rows_by half.entry.at (first_of half.entry.at other half.entry.zero.now half.entry.offset.now half.entry.vector.now)) }
{
    let p = half.at.modulus;
    let start = mul(p, other, half.zero[0]);
    let step = mul(p, p - 1, other);
    let factors = linear_factors(p, start, step);
    make_half(half, factors, key, out);
}

// A product's second half, under b's keys: minus the external value, times a's zero key.
fn second_half(half: Half, key: &mut [u8], out: &mut [u8])
    requires fits { Fits half.at × (Vectors half.at.k half.zero.now half.offset.now half.vector.now key.old × (length out.old ≡ (half.at.under - 1) * half.at.k)) }
    requires under_value { half.at.under ≡ half.at.modulus }
    ensures { (key.new ≡ key_by half.entry.at (second_of half.entry.at half.entry.zero.now half.entry.offset.now half.entry.vector.now))
        × (out.new ≡ rows_by half.entry.at (second_of half.entry.at half.entry.zero.now half.entry.offset.now half.entry.vector.now)) }
{
    let p = half.at.modulus;
    let factors = linear_factors(p, 0, p - 1);
    make_half(half, factors, key, out);
}

// The second half, whose zero key is added to the first's.
fn add_second(half: Half, key: &mut [u8], out: &mut [u8])
    requires fits { Fits half.at × (Vectors half.at.k half.zero.now half.offset.now half.vector.now key.old × (length out.old ≡ (half.at.under - 1) * half.at.k)) }
    requires under_value { half.at.under ≡ half.at.modulus }
    ensures { (key.new ≡ add_v half.entry.at.modulus key.old (key_by half.entry.at (second_of half.entry.at half.entry.zero.now half.entry.offset.now half.entry.vector.now)))
        × (out.new ≡ rows_by half.entry.at (second_of half.entry.at half.entry.zero.now half.entry.offset.now half.entry.vector.now)) }
{
    let mut room = scratch::<128>();
    let work = &mut room[..half.at.k];
    second_half(half, &mut *work, out);
    add_multiple(half.at.modulus, 1, &*work, key);
}

// A product, of the zero keys of its two wires: the rows of its first half stand before those of its second.
pub fn product_halves(turn: Turn, a: &[u8], b: &[u8], offset: &[u8], key: &mut [u8], out: &mut [u8])
    requires ranged { Ranged turn × (Three turn.k a.now b.now offset.now × (length key.old ≡ turn.k)) }
    requires out_len { length out.old ≡ 2 * (turn.modulus - 1) * turn.k }
    ensures { (key.new ≡ product_key turn a.now b.now offset.now)
        × (out.new ≡ product_rows turn a.now b.now offset.now) }
{
    let middle = out.len() / 2;
    let p = turn.modulus;
    let first = Half {
        at: turn.half(p, 0),
        zero: a,
        offset,
        vector: offset,
    };
    let second = Half {
        at: turn.half(p, 1),
        zero: b,
        offset,
        vector: a,
    };
    first_half(first, b[0], &mut *key, &mut out[..middle]);
    add_second(second, key, &mut out[middle..]);
}
