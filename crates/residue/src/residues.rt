// Sums, differences and products modulo p on bytes. A sum and a difference of residues need no division; a product takes one,
// or none where the modulus' reciprocal is at hand.
ghost use Rattle.std.specs.Prelude.{◌≡◌, ◌+◌, ◌*◌, ◌/◌, ◌%◌, ◌<◌};
ghost use Rattle.residue.specs.Residue.{add, sub, mul};

pub fn add(p: u8, a: u8, b: u8) -> u8
    requires { (a < p) × (b < p) }
    ensures { result ≡ add p a b }
{
    let gap = p - b;
    if a < gap { a + b } else { a - gap }
}

pub fn sub(p: u8, a: u8, b: u8) -> u8
    requires { (a < p) × (b < p) }
    ensures { result ≡ sub p a b }
{
    if b <= a { a - b } else { a + (p - b) }
}

pub fn mul(p: u8, a: u8, b: u8) -> u8
    requires { 0 < p }
    ensures { result ≡ mul p a b }
{
    let product = u16::from(a) * u16::from(b);
    (product % u16::from(p)) as u8
}

// What `reduce` multiplies by where it would divide by `p`.
pub fn reciprocal(p: u8) -> u32
    requires { 0 < p }
    ensures { result ≡ 65536 / p }
{
    65536 / u32::from(p)
}

// `x` modulo `p`, with `m` the reciprocal of `p`. The quotient found is at most one too small.
pub fn reduce(p: u8, m: u32, x: u16) -> u8
    requires { (0 < p) × (m ≡ 65536 / p) }
    ensures { result ≡ x % p }
{
    let wide = u32::from(x);
    let modulus = u32::from(p);
    let quotient = wide * m / 65536;
    let rest = wide - quotient * modulus;
    if rest < modulus {
        rest as u8
    } else {
        (rest - modulus) as u8
    }
}

// a + c * b, whole: it fits, since 255 + 255 * 255 does.
pub fn multiple_added(a: u8, c: u8, b: u8) -> u16
    ensures { result ≡ a + c * b }
{
    u16::from(a) + u16::from(c) * u16::from(b)
}
