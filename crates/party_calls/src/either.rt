// Two buffers, each byte against its modulus: the lowest index at which either has a bad one. Of the second only what a party may read counts.
ghost use Rattle.std.specs.Prelude.{◌≡◌, ◌≤◌, length};
ghost use Rattle.party_calls.specs.Either.{bad_at, bad_read, either_checked, Covered};

use checks::{Answer, Refusal};
use circuit::may_read;

// Whether a buffer has a byte at an index that is not below its modulus.
fn bad_at(values: &[u8], moduli: &[u8], i: usize) -> bool
    requires { length values.now ≤ length moduli.now }
    ensures { result ≡ bad_at values.now moduli.now i }
{
    i < values.len() && moduli[i] <= values[i]
}

// .. and a party may read it, where each byte is for those named.
fn bad_read(values: &[u8], moduli: &[u8], readers: &[u8], party: u32, i: usize) -> bool
    requires { (length values.now ≤ length moduli.now) × (length values.now ≤ length readers.now) }
    ensures { result ≡ bad_read values.now moduli.now readers.now party i }
{
    i < values.len() && may_read(readers[i], party) && moduli[i] <= values[i]
}

// The bytes `xs` against `ps`, and of `ys` against `qs` those that the party may read: refused at the lowest index of a bad one.
pub fn either_checked(
    xs: &[u8],
    ps: &[u8],
    ys: &[u8],
    qs: &[u8],
    readers: &[u8],
    party: u32,
) -> Answer
    requires { Covered xs.now ps.now ys.now qs.now readers.now }
    ensures { result ≡ either_checked xs.now ps.now ys.now qs.now readers.now party }
{
    for i in 0..xs.len().max(ys.len()) {
        if bad_at(xs, ps, i) || bad_read(ys, qs, readers, party, i) {
            return Err(Refusal::ValueTooLarge.at(i));
        }
    }
    Ok(())
}
