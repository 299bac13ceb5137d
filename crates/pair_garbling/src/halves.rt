// A half: the rows under one wire's keys, of external values 1 up, and the zero key with which the missing row 0 would be all zero.
ghost use Rattle.std.specs.Prelude.{◌≡◌, ◌-◌, ◌*◌, length};
ghost use Rattle.pair_garbling.specs.Halves.{Fits, Vectors, key_under, rows_under, key_made, rows_made};

use lists::scratch;
use pair_checks::HalfAt;
use residue::{add_multiple, key_of, mul, scale};
use rows::{Row, put_row};

// What a half is made of: where it stands, the zero key and the offset of the wire that it is under, and the vector that its factors multiply.
#[derive(Clone, Copy)]
pub struct Half<'a> {
    pub at: HalfAt,
    pub zero: &'a [u8],
    pub offset: &'a [u8],
    pub vector: &'a [u8],
}

// The zero key that takes off what row 0 would be without one: c times the vector and the pad under `keys`.
fn put_key(at: HalfAt, c: u8, keys: &[u8], vector: &[u8], out: &mut [u8])
    requires fits { Fits at × (length keys.now ≡ at.k) }
    requires vector_len { (length vector.now ≡ at.k) × (length out.old ≡ at.k) }
    ensures { out.new ≡ key_under at keys.now c vector.now }
{
    let p = at.modulus;
    out.fill(0);
    add_multiple(p, c, vector, &mut *out);
    pads::add_pad_row(p, at.bound(), 1, at.k, keys, &mut *out);
    scale(p, p - 1, out);
}

// The rows of external values 1 up, where `work` holds the key of external value 0: each turn adds the offset once.
fn put_rows(half: Half, factors: [u8; 256], key: &[u8], work: &mut [u8], out: &mut [u8])
    requires fits { Fits half.at × Vectors half.at.k key.now half.offset.now half.vector.now work.old }
    requires out_len { length out.old ≡ (half.at.under - 1) * half.at.k }
    ensures { out.new ≡ rows_under half.entry.at factors work.old key.now half.entry.offset.now half.entry.vector.now }
{
    let at = half.at;
    let row = Row {
        n: 1,
        k: at.k,
        q: at.modulus,
        bound: at.bound(),
    };
    // By places: after a loop over pieces of `out` lent by `chunks_exact_mut` a proof would no longer know what stands in it.
    let mut from = 0;
    for factor in &factors[1..usize::from(at.under)] {
        let to = from + at.k;
        add_multiple(at.under, 1, half.offset, &mut *work);
        put_row(row, &*work, key, *factor, half.vector, &mut out[from..to]);
        from = to;
    }
}

// The zero key of a half and its rows, under the keys with this zero key and offset.
pub fn make_half(half: Half, factors: [u8; 256], key: &mut [u8], out: &mut [u8])
    requires fits { Fits half.at × Vectors half.at.k half.zero.now half.offset.now half.vector.now key.old }
    requires out_len { length out.old ≡ (half.at.under - 1) * half.at.k }
    ensures { (key.new ≡ key_made half.entry.at factors half.entry.zero.now half.entry.offset.now half.entry.vector.now)
        × (out.new ≡ rows_made half.entry.at factors half.entry.zero.now half.entry.offset.now half.entry.vector.now) }
{
    let q = half.at.under;
    let minus = mul(q, q - 1, half.zero[0]);
    let mut room = scratch::<128>();
    let work = &mut room[..half.at.k];
    key_of(q, half.zero, minus, half.offset, &mut *work);
    put_key(half.at, factors[0], &*work, half.vector, &mut *key);
    put_rows(half, factors, &*key, work, out);
}
