// Keccak-f[1600], the permutation of FIPS 202, on a state of 25 lanes: lane (x, y) stands at place 5·y + x, as in specs/Lanes.antt.
// Each function's result is given outright by the definitions of specs/, which follow FIPS 202 formula by formula. The steps are unrolled,
// and each takes the state apart into 25 locals: the compiler then keeps it in registers and on the stack, as it does for unrolled C.
// Rests on nothing but the library's bit operations.

#![tactic(auto)]

ghost use Rattle.std.specs.Prelude.{◌≡◌};
ghost use Rattle.keccak.specs.Steps.{theta as theta_step, rho as rho_step, pi as pi_step, chi as chi_step, iota as iota_step};
ghost use Rattle.keccak.specs.Keccak.{round as round_step, keccak_f};

// The round constants. proofs/Tables.antt shows that they are those of FIPS 202's shift register.
const RC: [u64; 24] = [
    0x0000000000000001,
    0x0000000000008082,
    0x800000000000808a,
    0x8000000080008000,
    0x000000000000808b,
    0x0000000080000001,
    0x8000000080008081,
    0x8000000000008009,
    0x000000000000008a,
    0x0000000000000088,
    0x0000000080008009,
    0x000000008000000a,
    0x000000008000808b,
    0x800000000000008b,
    0x8000000000008089,
    0x8000000000008003,
    0x8000000000008002,
    0x8000000000000080,
    0x000000000000800a,
    0x800000008000000a,
    0x8000000080008081,
    0x8000000000008080,
    0x0000000080000001,
    0x8000000080008008,
];

// θ: to each lane the column parities on its left, and those on its right rotated by one, are added.
fn theta(a: [u64; 25]) -> [u64; 25]
    ensures { result ≡ theta_step a }
{
    let [
        a00,
        a10,
        a20,
        a30,
        a40,
        a01,
        a11,
        a21,
        a31,
        a41,
        a02,
        a12,
        a22,
        a32,
        a42,
        a03,
        a13,
        a23,
        a33,
        a43,
        a04,
        a14,
        a24,
        a34,
        a44,
    ] = a;
    let c0 = a00 ^ a01 ^ a02 ^ a03 ^ a04;
    let c1 = a10 ^ a11 ^ a12 ^ a13 ^ a14;
    let c2 = a20 ^ a21 ^ a22 ^ a23 ^ a24;
    let c3 = a30 ^ a31 ^ a32 ^ a33 ^ a34;
    let c4 = a40 ^ a41 ^ a42 ^ a43 ^ a44;
    let d0 = c4 ^ c1.rotate_left(1);
    let d1 = c0 ^ c2.rotate_left(1);
    let d2 = c1 ^ c3.rotate_left(1);
    let d3 = c2 ^ c4.rotate_left(1);
    let d4 = c3 ^ c0.rotate_left(1);
    [
        a00 ^ d0,
        a10 ^ d1,
        a20 ^ d2,
        a30 ^ d3,
        a40 ^ d4,
        a01 ^ d0,
        a11 ^ d1,
        a21 ^ d2,
        a31 ^ d3,
        a41 ^ d4,
        a02 ^ d0,
        a12 ^ d1,
        a22 ^ d2,
        a32 ^ d3,
        a42 ^ d4,
        a03 ^ d0,
        a13 ^ d1,
        a23 ^ d2,
        a33 ^ d3,
        a43 ^ d4,
        a04 ^ d0,
        a14 ^ d1,
        a24 ^ d2,
        a34 ^ d3,
        a44 ^ d4,
    ]
}

// ρ, then π: each lane is rotated by its offset and moved to its new place.
fn rho_pi(a: [u64; 25]) -> [u64; 25]
    ensures { result ≡ pi_step (rho_step a) }
{
    let [
        a00,
        a10,
        a20,
        a30,
        a40,
        a01,
        a11,
        a21,
        a31,
        a41,
        a02,
        a12,
        a22,
        a32,
        a42,
        a03,
        a13,
        a23,
        a33,
        a43,
        a04,
        a14,
        a24,
        a34,
        a44,
    ] = a;
    [
        a00,
        a11.rotate_left(44),
        a22.rotate_left(43),
        a33.rotate_left(21),
        a44.rotate_left(14),
        a30.rotate_left(28),
        a41.rotate_left(20),
        a02.rotate_left(3),
        a13.rotate_left(45),
        a24.rotate_left(61),
        a10.rotate_left(1),
        a21.rotate_left(6),
        a32.rotate_left(25),
        a43.rotate_left(8),
        a04.rotate_left(18),
        a40.rotate_left(27),
        a01.rotate_left(36),
        a12.rotate_left(10),
        a23.rotate_left(15),
        a34.rotate_left(56),
        a20.rotate_left(62),
        a31.rotate_left(55),
        a42.rotate_left(39),
        a03.rotate_left(41),
        a14.rotate_left(2),
    ]
}

// χ: to each lane the product of its two right neighbours is added, the nearer one complemented.
fn chi(a: [u64; 25]) -> [u64; 25]
    ensures { result ≡ chi_step a }
{
    let [
        a00,
        a10,
        a20,
        a30,
        a40,
        a01,
        a11,
        a21,
        a31,
        a41,
        a02,
        a12,
        a22,
        a32,
        a42,
        a03,
        a13,
        a23,
        a33,
        a43,
        a04,
        a14,
        a24,
        a34,
        a44,
    ] = a;
    [
        a00 ^ (!a10 & a20),
        a10 ^ (!a20 & a30),
        a20 ^ (!a30 & a40),
        a30 ^ (!a40 & a00),
        a40 ^ (!a00 & a10),
        a01 ^ (!a11 & a21),
        a11 ^ (!a21 & a31),
        a21 ^ (!a31 & a41),
        a31 ^ (!a41 & a01),
        a41 ^ (!a01 & a11),
        a02 ^ (!a12 & a22),
        a12 ^ (!a22 & a32),
        a22 ^ (!a32 & a42),
        a32 ^ (!a42 & a02),
        a42 ^ (!a02 & a12),
        a03 ^ (!a13 & a23),
        a13 ^ (!a23 & a33),
        a23 ^ (!a33 & a43),
        a33 ^ (!a43 & a03),
        a43 ^ (!a03 & a13),
        a04 ^ (!a14 & a24),
        a14 ^ (!a24 & a34),
        a24 ^ (!a34 & a44),
        a34 ^ (!a44 & a04),
        a44 ^ (!a04 & a14),
    ]
}

// ι: the round's constant is added to lane (0, 0).
fn iota(a: [u64; 25], rc: u64) -> [u64; 25]
    ensures { result ≡ iota_step rc a }
{
    let mut b = a;
    b[0] ^= rc;
    b
}

// The round whose constant is given.
#[tactic(auto, unfolding(crate::specs::Keccak::round))]
fn round(a: [u64; 25], rc: u64) -> [u64; 25]
    ensures { result ≡ round_step rc a }
{
    iota(chi(rho_pi(theta(a))), rc)
}

// The permutation: 24 rounds.
pub fn keccak_f(state: [u64; 25]) -> [u64; 25]
    ensures { result ≡ keccak_f state }
{
    let mut a = state;
    for rc in RC {
        // A call's result cannot be written straight into an array of the loop: no proof is made of it.
        let b = round(a, rc);
        a = b;
    }
    a
}
