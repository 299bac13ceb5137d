// Runs the hash functions on published and independently computed values and the reader on the specification's examples, and prints each
// name and whether the values agree. Rests on `shake`, `keccak` and `circuit`; what it prints is held to the file stdout. A write that fails
// ends the program with its error.

#![tactic(auto)]

mod circuits;
mod data;

ghost use Rattle.std.specs.Prelude.{◌≡◌, ℕ, ◌<◌, ◌≤◌, length, get_or};

use data::{
    BITS_1600, EMPTY, LONG, RAMP, RAMP_135, RAMP_136, RAMP_137, RAMP_271, RAMP_272, RAMP_273,
    ZERO_STATE,
};
use std::io;

// The first place at which two byte strings differ, or the length of the first where it begins the second.
fn first_difference(a: &[u8], b: &[u8]) -> usize
    ensures within { result ≤ length a.now }
    ensures before { (k : ℕ) → k < result → get_or a.now k 0 ≡ get_or b.now k 0 }
{
    let mut i = 0;
    while i < a.len() {
        if b.len() <= i {
            return i;
        }
        if a[i] != b[i] {
            return i;
        }
        i += 1;
    }
    i
}

// The first lane in which two states differ, or 25.
fn first_lane(a: [u64; 25], b: [u64; 25]) -> usize
    ensures within { result ≤ 25 }
    ensures before { (k : ℕ) → k < result → get_or a k 0 ≡ get_or b k 0 }
{
    let mut i = 0;
    while i < 25 {
        if a[i] != b[i] {
            return i;
        }
        i += 1;
    }
    i
}

// Prints a name, and ok or the place of the first difference.
pub fn report(rt: &impl Print, name: &str, same: bool, place: usize) -> io::Result<()> {
    if same {
        println!(rt; "{name}: ok")
    } else {
        println!(rt; "{name}: differs at {place}")
    }
}

fn report_bytes(rt: &impl Print, name: &str, got: &[u8], want: &[u8]) -> io::Result<()> {
    let place = first_difference(got, want);
    report(rt, name, got == want, place)
}

fn permutation(rt: &impl Print) -> io::Result<()> {
    let got = keccak::keccak_f([0u64; 25]);
    let place = first_lane(got, ZERO_STATE);
    report(rt, "Keccak-f[1600] of the zero state", place == 25, place)
}

fn published(rt: &impl Print) -> io::Result<()> {
    let mut out = [0u8; 512];
    shake::shake256(b"", &mut out);
    report_bytes(rt, "SHAKE256 of the empty message, 512 bytes", &out, &EMPTY)?;
    shake::shake256(&[0xa3u8; 200], &mut out);
    report_bytes(
        rt,
        "SHAKE256 of the 1600-bit message, 512 bytes",
        &out,
        &BITS_1600,
    )
}

// A message that begins the ramp, 32 bytes of output.
fn ramp(rt: &impl Print, name: &str, message: &[u8], want: &[u8]) -> io::Result<()> {
    let mut out = [0u8; 32];
    shake::shake256(message, &mut out);
    report_bytes(rt, name, &out, want)
}

fn around_blocks(rt: &impl Print) -> io::Result<()> {
    let bytes = RAMP;
    ramp(rt, "SHAKE256 of 135 bytes", &bytes[..135], &RAMP_135)?;
    ramp(rt, "SHAKE256 of 136 bytes", &bytes[..136], &RAMP_136)?;
    ramp(rt, "SHAKE256 of 137 bytes", &bytes[..137], &RAMP_137)?;
    ramp(rt, "SHAKE256 of 271 bytes", &bytes[..271], &RAMP_271)?;
    ramp(rt, "SHAKE256 of 272 bytes", &bytes[..272], &RAMP_272)?;
    ramp(rt, "SHAKE256 of 273 bytes", &bytes[..273], &RAMP_273)
}

fn long_output(rt: &impl Print) -> io::Result<()> {
    let mut out = [0u8; 545];
    shake::shake256(b"\x00\x01\x02", &mut out);
    report_bytes(rt, "SHAKE256 of 3 bytes, 545 bytes of output", &out, &LONG)
}

fn main(rt: HostRuntime) -> io::Result<()> {
    permutation(&rt)?;
    published(&rt)?;
    around_blocks(&rt)?;
    long_output(&rt)?;
    circuits::examples(&rt)
}
