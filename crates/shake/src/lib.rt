// SHAKE256 of FIPS 202: a sponge that takes a message in, field by field, and gives as many bytes or 8-byte numbers as one likes.
// `shake256` is the function on plain slices; `absorb` takes one field into a sponge that is lent, and `finished` and `squeeze_numbers`
// give the numbers. Each equals the definition on bits and blocks in specs/, for every message and every length of output.
// Rests on the permutation of the crate keccak.

#![tactic(auto)]

ghost use Rattle.std.specs.Prelude.{◌≡◌, ℕ, ◌*◌, ◌<◌, List, length};
ghost use Rattle.std.proofs.Common.{lit<};
ghost use Rattle.shake.specs.Numbers.{numbers};
ghost use Rattle.shake.specs.Shake.{shake256, squeezed};
ghost use Rattle.shake.specs.Read.{byte_at, lane_at, stream};
ghost use Rattle.shake.specs.Stream.{Soaked, with_field, empty, closed};

use std::marker::Model;

// A block has 136 bytes, which are 17 lanes.
const RATE: usize = 136;

const RATE_LANES: usize = 17;

// The lanes of the state, and the place in the block, 0 to 135, of the next byte.
#[derive(Clone, Copy)]
pub struct Sponge {
    pub lanes: [u64; 25],
    pub at: usize,
}

impl Model for Sponge {
    ghost Value = { Soaked };

    ghost view = { λ s. record { lanes = s.lanes; at = s.at } };

    ghost invariant = { λ s. s.at < 136 };

    ghost inverse = { λ s. record { lanes = s.lanes; at = s.at } };
}

// The sponge before the first byte.
pub fn start() -> Sponge
    ensures { result ≡ empty }
{
    Sponge {
        lanes: [0u64; 25],
        at: 0,
    }
}

// The sponge with the bytes of a field taken in. The lanes stay in one local: they are copied at the permutations alone.
pub fn absorbed(sponge: Sponge, field: &[u8]) -> Sponge
    ensures { result ≡ with_field sponge field.now }
{
    let mut lanes = sponge.lanes;
    let mut at = sponge.at;
    for byte in field {
        let lane = at / 8;
        let shift = 8 * (at % 8);
        lanes[lane] ^= u64::from(*byte) << shift;
        at += 1;
        if at == RATE {
            let next = keccak::keccak_f(lanes);
            lanes = next;
            at = 0;
        }
    }
    Sponge { lanes, at }
}

// The state once the message has ended: suffix and padding, and the permutation.
pub fn finished(sponge: Sponge) -> [u64; 25]
    ensures { result ≡ closed sponge }
{
    let mut lanes = sponge.lanes;
    let at = sponge.at;
    let lane = at / 8;
    let shift = 8 * (at % 8);
    let pad: u64 = 0x1f;
    lanes[lane] ^= pad << shift;
    lanes[16] ^= 0x8000000000000000;
    keccak::keccak_f(lanes)
}

// What a block of the state is read as, place by place.
trait Place: Copy {
    ghost BLOCK: { ℕ };

    ghost reads: { List ℕ → ℕ → Self };

    // How many places a block has.
    const BLOCK: usize;

    // What stands at a place.
    fn read(lanes: &[u64; 25], at: usize) -> Self
        requires { at < BLOCK }
        ensures { result ≡ reads lanes.now at };

    ghost not_empty: { 0 < BLOCK };
}

impl Place for u8 {
    ghost BLOCK = { 136 };

    ghost reads = { byte_at };

    ghost not_empty = { lit< tt };

    const BLOCK: usize = RATE;

    fn read(lanes: &[u64; 25], at: usize) -> u8 {
        ((lanes[at / 8] >> (8 * (at % 8))) % 256) as u8
    }
}

impl Place for u64 {
    ghost BLOCK = { 17 };

    ghost reads = { lane_at };

    ghost not_empty = { lit< tt };

    const BLOCK: usize = RATE_LANES;

    fn read(lanes: &[u64; 25], at: usize) -> u64 {
        lanes[at]
    }
}

// What stands in a finished state, place after place, as much as the buffer has: where a block has ended, the next one is made.
fn squeeze_places<P: Place>(state: [u64; 25], out: &mut [P])
    ensures { out.new ≡ stream P.BLOCK P.reads (length out.old) state 0 }
{
    let mut lanes = state;
    let mut at = 0;
    for place in out.iter_mut() {
        if at == P::BLOCK {
            let next = keccak::keccak_f(lanes);
            lanes = next;
            at = 0;
        }
        *place = P::read(&lanes, at);
        at += 1;
    }
}

// Bytes out of a finished state, as many as the buffer has.
pub fn squeeze(state: [u64; 25], out: &mut [u8])
    ensures { out.new ≡ squeezed (length out.old) state }
{
    squeeze_places(state, out);
}

// The same as 8-byte numbers. A block is 17 lanes, so each number is a lane.
pub fn squeeze_numbers(state: [u64; 25], out: &mut [u64])
    ensures { out.new ≡ numbers (squeezed (8 * length out.old) state) }
{
    squeeze_places(state, out);
}

// Takes a field into a sponge that is lent.
pub fn absorb(sponge: &mut Sponge, field: &[u8])
    ensures { sponge.new ≡ with_field sponge.old field.now }
{
    *sponge = absorbed(*sponge, field);
}

// SHAKE256 of a message: as many bytes as the buffer has.
pub fn shake256(message: &[u8], out: &mut [u8])
    ensures { out.new ≡ shake256 message.now (length out.old) }
{
    squeeze(finished(absorbed(start(), message)), out);
}
