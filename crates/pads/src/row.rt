// The pads of a row, entry by entry: put on a lent buffer, or taken off it. The work memory for the numbers and the factors of the modulus
// are made once a row and passed down.
ghost use Rattle.std.specs.Prelude.{◌≡◌};
ghost use Rattle.residue.specs.Vector.{add_v, sub_v};
ghost use Rattle.pads.specs.Moved.{moved, Asked, Row};
ghost use Rattle.pads.specs.Pad.{shake_pad, pad_row};
ghost use Rattle.pads.specs.Binding.{under_of};

use crate::entries::{Entry, move_pads};
use crate::input::Bound;
use crate::memory::Work;
use crate::remainder::factors_of;

// The pads of `n` senders for `n` receivers.
fn move_pad_row(minus: bool, q: u8, bound: Bound, n: usize, k: usize, keys: &[u8], out: &mut [u8])
    requires asked { Asked q k out.old }
    requires row { Row n k keys.now out.old }
    ensures { out.new ≡ moved minus q out.old (pad_row (shake_pad bound.round) k q (under_of bound) keys.now n) }
{
    let factors = factors_of(q);
    let mut work = Work::new();
    let mut at = 0;
    for i in 0..n {
        let to = at + k;
        let entry = Entry {
            minus,
            factors,
            bound,
            receiver: i as u8,
        };
        move_pads(entry, n, keys, &mut work, &mut out[at..to]);
        at = to;
    }
}

// out := out + the pads of all senders for all receivers, each `k` bytes
pub fn add_pad_row(q: u8, bound: Bound, n: usize, k: usize, keys: &[u8], out: &mut [u8])
    requires asked { Asked q k out.old }
    requires row { Row n k keys.now out.old }
    ensures { out.new ≡ add_v q out.old (pad_row (shake_pad bound.round) k q (under_of bound) keys.now n) }
{
    move_pad_row(false, q, bound, n, k, keys, out);
}

// out := out - the pads of all senders for all receivers
pub fn sub_pad_row(q: u8, bound: Bound, n: usize, k: usize, keys: &[u8], out: &mut [u8])
    requires asked { Asked q k out.old }
    requires row { Row n k keys.now out.old }
    ensures { out.new ≡ sub_v q out.old (pad_row (shake_pad bound.round) k q (under_of bound) keys.now n) }
{
    move_pad_row(true, q, bound, n, k, keys, out);
}
