// Key vectors: sums, differences and multiples modulo p of slices of one length, component by component, in place or into a
// slice that the caller lends.
ghost use Rattle.std.specs.Prelude.{◌≡◌, ◌<◌, length};
ghost use Rattle.residue.specs.Vector.{add_v, sub_v, mul_v, key_v, Aligned};

use crate::residues::{multiple_added, reciprocal, reduce};

// out := c * out
pub fn scale(p: u8, c: u8, out: &mut [u8])
    requires { 0 < p }
    ensures { out.new ≡ mul_v p c out.old }
{
    let m = reciprocal(p);
    for x in out.iter_mut() {
        *x = reduce(p, m, multiple_added(0, c, *x));
    }
}

// out := out + c * b
pub fn add_multiple(p: u8, c: u8, b: &[u8], out: &mut [u8])
    requires { Aligned p out.old b.now }
    ensures { out.new ≡ add_v p out.old (mul_v p c b.now) }
{
    let m = reciprocal(p);
    for (i, x) in out.iter_mut().enumerate() {
        *x = reduce(p, m, multiple_added(*x, c, b[i]));
    }
}

// out := zero + e * offset
pub fn key_of(p: u8, zero: &[u8], e: u8, offset: &[u8], out: &mut [u8])
    requires aligned { Aligned p zero.now offset.now }
    requires out_len { length out.old ≡ length zero.now }
    ensures { out.new ≡ key_v p zero.now e offset.now }
{
    let m = reciprocal(p);
    for (i, x) in out.iter_mut().enumerate() {
        *x = reduce(p, m, multiple_added(zero[i], e, offset[i]));
    }
}

// out := a - b: p - 1 times a vector is what takes it off
pub fn difference(p: u8, a: &[u8], b: &[u8], out: &mut [u8])
    requires p_nonzero { 0 < p }
    requires a_len { (length a.now ≡ length b.now) × (length out.old ≡ length a.now) }
    ensures { out.new ≡ sub_v p a.now b.now }
{
    key_of(p, a, p - 1, b, out);
}
