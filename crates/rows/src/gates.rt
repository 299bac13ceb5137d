// The rows of one gate, by its recipe, from the keys, masks and offsets that they are made of.
ghost use Rattle.std.specs.Prelude.{◌≡◌, ◌+◌, ◌*◌, ◌<◌};
ghost use Rattle.counts.specs.Images.{ImagesFit};
ghost use Rattle.rows.specs.Made.{Operand, RoomFor, VectorFor, row_for, held_in, table_made, linear_made, second_made, product_made};
ghost use Rattle.rows.specs.Made.{chooser_made, both_choosers, correctors_made, choice_made};

use crate::factors::{linear_factors, table_factors};
use crate::keyed::Keyed;
use crate::rows::{Line, Row, component_rows, put_keyed_row};
use counts::Images;
use lists::scratch;
use pads::Bound;
use residue::{add, mul, sub};

// The wire that a gate makes, for `n` parties and key length `k`, in a round.
#[derive(Clone, Copy)]
pub struct Made {
    pub n: usize,
    pub k: usize,
    pub round: u32,
    pub wire: u32,
    pub modulus: u8,
}

impl Made {
    // Rows of a component, under keys of modulus `q`.
    fn row(self, q: u8, component: u8) -> Row
        ensures { result ≡ row_for self q component }
    {
        Row {
            n: self.n,
            k: self.k,
            q: self.modulus,
            bound: Bound {
                round: self.round,
                modulus: q,
                wire: self.wire,
                component,
            },
        }
    }
}

// A table over a wire of modulus `q`: `a` and `offset` are those of that wire, `z` is the record's, and `given` the offsets of the gate's modulus.
pub fn table_rows(
    made: Made,
    file: &[u8],
    images: Images,
    q: u8,
    a: Keyed,
    offset: &[u8],
    z: Keyed,
    given: &[u8],
    out: &mut [u8],
)
    requires room_for { RoomFor made out.old q × ((1 < q) × ImagesFit file.now images q made.modulus) }
    requires vector_for { VectorFor made offset.now × VectorFor made given.now }
    requires operand { Operand q a × Operand made.modulus z }
    ensures { out.new ≡ table_made made file.now images q (held_in made a) offset.now (held_in made z) given.now }
{
    let m = made.n * made.k;
    let factors = table_factors(file, images, q, made.modulus, a.mask, z.mask);
    let keys = Line {
        base: &a.key[..m],
        step: offset,
    };
    let messages = Line {
        base: &z.key[..m],
        step: given,
    };
    component_rows(made.row(q, 0), factors, keys, messages, out);
}

// A component whose messages are base + (start + alpha·step)·offset, under the keys zero + alpha·offset.
fn linear_rows(
    made: Made,
    component: u8,
    start: u8,
    step: u8,
    zero: Keyed,
    base: Keyed,
    offset: &[u8],
    out: &mut [u8],
)
    requires room_for { RoomFor made out.old made.modulus × ((start < made.modulus) × VectorFor made offset.now) }
    requires operand { Operand made.modulus zero × Operand made.modulus base }
    ensures { out.new ≡ linear_made made component offset.now (held_in made zero).key (held_in made base).key start step }
{
    let m = made.n * made.k;
    let p = made.modulus;
    let keys = Line {
        base: &zero.key[..m],
        step: offset,
    };
    let messages = Line {
        base: &base.key[..m],
        step: offset,
    };
    component_rows(
        made.row(p, component),
        linear_factors(p, start, step),
        keys,
        messages,
        out,
    );
}

// A product's component 1, under b's keys, with the second parts: (second + its mask·offset) - beta·(a + its mask·offset).
fn second_rows(made: Made, offset: &[u8], a: Keyed, b: Keyed, second: Keyed, out: &mut [u8])
    requires room_for { RoomFor made out.old made.modulus × VectorFor made offset.now }
    requires operand { Operand made.modulus a × (Operand made.modulus b × Operand made.modulus second) }
    ensures { out.new ≡ second_made made offset.now (held_in made a) (held_in made b) (held_in made second) }
{
    let m = made.n * made.k;
    let p = made.modulus;
    let base = second.masked(p, m, offset);
    let given = a.masked(p, m, offset);
    let keys = Line {
        base: &b.key[..m],
        step: offset,
    };
    let messages = Line {
        base: &base[..m],
        step: &given[..m],
    };
    component_rows(
        made.row(p, 1),
        linear_factors(p, 0, p - 1),
        keys,
        messages,
        out,
    );
}

// A product of a and b: `z` and `first` are the record's.
pub fn product_rows(
    made: Made,
    offset: &[u8],
    a: Keyed,
    b: Keyed,
    z: Keyed,
    first: Keyed,
    out: &mut [u8],
)
    requires room_for { RoomFor made out.old (2 * made.modulus) × VectorFor made offset.now }
    requires operand { Operand made.modulus a × Operand made.modulus b }
    requires operand_2 { Operand made.modulus z × Operand made.modulus first }
    ensures { out.new ≡ product_made made offset.now (held_in made a) (held_in made b) (held_in made z) (held_in made first) }
{
    let m = made.n * made.k;
    let p = made.modulus;
    let half = out.len() / 2;
    let start = add(p, mul(p, b.mask, a.mask), first.mask);
    let step = sub(p, 0, b.mask);
    linear_rows(made, 0, start, step, a, first, offset, &mut out[..half]);
    let second = z.less(p, m, first);
    second_rows(made, offset, a, b, second, &mut out[half..]);
}

// A row under the bit's keys, with message x + its mask·offset.
fn chooser_row(
    made: Made,
    offset: &[u8],
    pair: &[u8],
    bit: Keyed,
    alpha: u8,
    x: Keyed,
    out: &mut [u8],
)
    requires room_for { RoomFor made out.old 1 × (VectorFor made offset.now × VectorFor made pair.now) }
    requires operand { Operand 2 bit × Operand made.modulus x }
    ensures { out.new ≡ chooser_made made offset.now pair.now (held_in made bit).key alpha (held_in made x) }
{
    let m = made.n * made.k;
    let mut work = scratch::<1024>();
    let keys = Line {
        base: &bit.key[..m],
        step: pair,
    };
    let messages = Line {
        base: &x.key[..m],
        step: offset,
    };
    put_keyed_row(
        made.row(2, 0),
        alpha,
        x.mask,
        keys,
        messages,
        &mut work[..m],
        out,
    );
}

// The chooser's two rows, under the bit's keys for 0 and for 1.
fn chooser(
    made: Made,
    offset: &[u8],
    pair: &[u8],
    bit: Keyed,
    first: Keyed,
    second: Keyed,
    out: &mut [u8],
)
    requires room_for { RoomFor made out.old 2 × (VectorFor made offset.now × VectorFor made pair.now) }
    requires operand { Operand 2 bit × (Operand made.modulus first × Operand made.modulus second) }
    ensures { out.new ≡ both_choosers made offset.now pair.now (held_in made bit).key (held_in made first) (held_in made second) }
{
    let m = made.n * made.k;
    chooser_row(made, offset, pair, bit, 0, first, &mut out[..m]);
    chooser_row(made, offset, pair, bit, 1, second, &mut out[m..]);
}

// The two correctors, under d's keys, on the two second parts; `mv` is the bit's mask.
fn correctors(
    made: Made,
    offset: &[u8],
    mv: u8,
    d: Keyed,
    first: Keyed,
    second: Keyed,
    out: &mut [u8],
)
    requires room_for { RoomFor made out.old (2 * made.modulus) × (VectorFor made offset.now × (mv < 2)) }
    requires operand { Operand made.modulus d × (Operand made.modulus first × Operand made.modulus second) }
    ensures { out.new ≡ correctors_made made offset.now mv (held_in made d) (held_in made first) (held_in made second) }
{
    let p = made.modulus;
    let half = out.len() / 2;
    let shift = mul(p, mv, d.mask);
    let start0 = sub(p, first.mask, shift);
    linear_rows(made, 1, start0, mv, d, first, offset, &mut out[..half]);
    let start1 = add(p, second.mask, shift);
    let step = sub(p, 0, mv);
    linear_rows(made, 2, start1, step, d, second, offset, &mut out[half..]);
}

// A choice by a bit with offsets `pair`: `d` is the difference of its two wires, `z`, `first` and `second` are the record's.
pub fn choice_rows(
    made: Made,
    offset: &[u8],
    pair: &[u8],
    bit: Keyed,
    d: Keyed,
    z: Keyed,
    first: Keyed,
    second: Keyed,
    out: &mut [u8],
)
    requires room_for { RoomFor made out.old (2 * made.modulus + 2) × (VectorFor made offset.now × VectorFor made pair.now) }
    requires operand { Operand 2 bit × Operand made.modulus d }
    requires operand_2 { Operand made.modulus z × (Operand made.modulus first × Operand made.modulus second) }
    ensures { out.new ≡ choice_made made offset.now pair.now (held_in made bit) (held_in made d) (held_in made z) (held_in made first) (held_in made second) }
{
    let m = made.n * made.k;
    let p = made.modulus;
    let two = 2 * m;
    let chosen = second.less(p, m, d);
    chooser(made, offset, pair, bit, first, chosen, &mut out[..two]);
    let rest0 = z.less(p, m, first);
    let rest1 = z.less(p, m, second);
    correctors(made, offset, bit.mask, d, rest0, rest1, &mut out[two..]);
}
