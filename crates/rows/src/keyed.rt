// Keys and masks as values, and what a gate makes of them before its rows.
ghost use Rattle.std.specs.Prelude.{◌≡◌, ◌≤◌, ◌<◌, length, take};
ghost use Rattle.residue.specs.Vector.{key_v};
ghost use Rattle.scheme.specs.Keyed.{less};
ghost use Rattle.rows.specs.Made.{Operand, keyed_of};

use lists::scratch;
use residue::{key_of, sub};

// The keys of all parties on a wire, one after another at the front of the array, and the wire's mask; or such a pair of a record.
#[derive(Clone, Copy)]
pub struct Keyed {
    pub key: [u8; 1024],
    pub mask: u8,
}

// The keys of external value `e`, by value: zero + e·offset at the front of an array.
fn keys_of(p: u8, zero: &[u8], e: u8, offset: &[u8]) -> [u8; 1024]
    requires { (0 < p) × ((length zero.now ≡ length offset.now) × (length zero.now ≤ 1024)) }
    ensures { (length result ≡ 1024) × (take (length zero.now) result ≡ key_v p zero.now e offset.now) }
{
    let m = zero.len();
    let mut out = scratch::<1024>();
    key_of(p, zero, e, offset, &mut out[..m]);
    out
}

impl Keyed {
    // key + mask·offset, on the first `m` bytes of the key.
    pub fn masked(self, p: u8, m: usize, offset: &[u8]) -> [u8; 1024]
        requires { Operand p self × ((length offset.now ≡ m) × (m ≤ 1024)) }
        ensures { (length result ≡ 1024) × (take m result ≡ key_v p (take m self.key) self.mask offset.now) }
    {
        keys_of(p, &self.key[..m], self.mask, offset)
    }

    // Less `other`, on the first `m` bytes of their keys: p - 1 times a vector is what takes it off.
    pub fn less(self, p: u8, m: usize, other: Keyed) -> Keyed
        requires { Operand p self × (Operand p other × (m ≤ 1024)) }
        ensures { Operand p result × (keyed_of m result ≡ less p (keyed_of m self) (keyed_of m other)) }
    {
        let key = keys_of(p, &self.key[..m], p - 1, &other.key[..m]);
        Keyed {
            key,
            mask: sub(p, self.mask, other.mask),
        }
    }
}
