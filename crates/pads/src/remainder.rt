// Sums and differences of a residue and a 64-bit number modulo a small q, with no division for each number: 2^32 and 2^24 modulo q fold
// the number to less than 2^25, the residue joins it whole, and one product with the reciprocal of q gives the quotient exactly.
ghost use Rattle.std.specs.Prelude.{◌≡◌, ◌+◌, ◌*◌, ◌/◌, ◌%◌, ◌<◌};
ghost use Rattle.pads.specs.Factored.{Folded};
ghost use Rattle.pads.specs.Moved.{shifted};

// A modulus q, and what takes the place of a division by it: 2^32 and 2^24 modulo q, the multiple of q next above 2^25, and the reciprocal
// 2^34 / q + 1.
#[derive(Clone, Copy)]
pub struct Factors {
    pub modulus: u8,
    pub high: u8,
    pub low: u8,
    pub top: u32,
    pub reciprocal: u64,
    ghost above_one: { 1 < modulus },
    ghost high_is: { high ≡ 4294967296 % modulus },
    ghost low_is: { low ≡ 16777216 % modulus },
    ghost top_is: { top ≡ (33554432 / modulus + 1) * modulus },
    ghost reciprocal_is: { reciprocal ≡ 17179869184 / modulus + 1 },
}

// A call of its own: put into its caller, it makes the loop over the numbers multiply 64-bit words where bytes would do.
#[inline(never)]
pub fn factors_of(q: u8) -> Factors
    requires { 1 < q }
    ensures { result.modulus ≡ q }
{
    let small = u32::from(q);
    let wide = u64::from(q);
    Factors {
        modulus: q,
        high: (4294967296 % wide) as u8,
        low: (16777216 % small) as u8,
        top: (33554432 / small + 1) * small,
        reciprocal: 17179869184 / wide + 1,
    }
}

// A number below 2^25 that leaves what `x` leaves modulo q.
fn folded(f: Factors, x: u64) -> u64
    ensures { Folded f.modulus x result }
{
    let once = x % 4294967296 + x / 4294967296 * u64::from(f.high);
    once % 16777216 + once / 16777216 * u64::from(f.low)
}

// `z` modulo q.
fn remainder(f: Factors, z: u64) -> u8
    requires { z < 67108864 }
    ensures { result ≡ z % f.modulus }
{
    let quotient = z * f.reciprocal / 17179869184;
    (z - quotient * u64::from(f.modulus)) as u8
}

// a + x modulo q, or a - x, for which the folded number is taken from the multiple of q.
// A flag and no type parameter: with a copy of the loops for each of the two, a pad of 16 numbers took 3 to 5 in 100 longer.
pub fn shifted(minus: bool, f: Factors, a: u8, x: u64) -> u8
    ensures { result ≡ shifted minus f.modulus a (x % f.modulus) }
{
    let z = folded(f, x);
    if minus {
        remainder(f, u64::from(f.top) - z + u64::from(a))
    } else {
        remainder(f, z + u64::from(a))
    }
}
