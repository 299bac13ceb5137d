// The pads of an entry, sender by sender: put on a lent buffer, or taken off it. A sender's pad is made and moved completely before the
// next sender's, and after each sender the buffer holds what stood there and exactly the pads of the senders taken so far.
ghost use Rattle.std.specs.Prelude.{◌≡◌, ◌+◌, ◌*◌, ◌≤◌, length};
ghost use Rattle.pads.specs.Moved.{reduced, moved, Asked};
ghost use Rattle.pads.specs.Pad.{shake_pad};
ghost use Rattle.pads.specs.Binding.{bound_by};
ghost use Rattle.pads.specs.Senders.{sums, TakesSender};

use crate::input::{Bound, pad_numbers};
use crate::memory::Work;
use crate::remainder::{Factors, shifted};

// What the pads of an entry have in common: whether they are taken off or put on, and what they are made and bound with.
#[derive(Clone, Copy)]
pub struct Entry {
    pub minus: bool,
    pub factors: Factors,
    pub bound: Bound,
    pub receiver: u8,
}

// Puts the numbers, reduced modulo q, on `out`, or takes them off it.
fn move_numbers(minus: bool, f: Factors, numbers: &[u64], out: &mut [u8])
    requires { length out.old ≡ length numbers.now }
    ensures { out.new ≡ moved minus f.modulus out.old (reduced f.modulus numbers.now) }
{
    for (i, x) in out.iter_mut().enumerate() {
        *x = shifted(minus, f, *x, numbers[i]);
    }
}

// The pad of one sender's key.
fn move_pad(entry: Entry, key: &[u8], work: &mut Work, out: &mut [u8])
    requires { Asked entry.factors.modulus (length out.old) out.old }
    ensures { out.new ≡ moved entry.minus entry.factors.modulus out.old
        (shake_pad entry.bound.round entry.factors.modulus (length out.old) (bound_by entry.bound entry.receiver key.now)) }
{
    let numbers = &mut work.numbers[..out.len()];
    pad_numbers(entry.bound, entry.receiver, key, &mut *numbers);
    move_numbers(entry.minus, entry.factors, numbers, out);
}

// Takes sender `j`: sums of the first j senders in, of the first j + 1 out.
fn move_sender(entry: Entry, j: usize, keys: &[u8], work: &mut Work, out: &mut [u8])
    requires asked { Asked entry.factors.modulus (length out.old) out.old }
    requires out_in_bounds { j * length out.old + length out.old ≤ length keys.now }
    ensures { TakesSender entry.minus entry.factors.modulus entry.bound entry.receiver keys.now j out.old out.new }
{
    let k = out.len();
    let key = lists::nth_piece(keys, k, j);
    move_pad(entry, key, work, out);
}

// The pads of `n` senders for one receiver.
pub fn move_pads(entry: Entry, n: usize, keys: &[u8], work: &mut Work, out: &mut [u8])
    requires asked { Asked entry.factors.modulus (length out.old) out.old }
    requires keys_len { length keys.now ≡ n * length out.old }
    ensures { out.new ≡ sums entry.minus entry.factors.modulus entry.bound entry.receiver keys.now out.old n }
{
    for j in 0..n {
        move_sender(entry, j, keys, &mut *work, &mut *out);
    }
}
