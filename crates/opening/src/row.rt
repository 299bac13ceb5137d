// A row without its pads, by itself and added to what stands there; for any number of parties from one on.
ghost use Rattle.std.specs.Prelude.{◌≡◌, ◌<◌};
ghost use Rattle.residue.specs.Vector.{add_v, sub_v, AllBelow};
ghost use Rattle.session.specs.Sizes.{Sizes, Vector};
ghost use Rattle.pads.specs.Pad.{shake_pad, pad_row};
ghost use Rattle.pads.specs.Binding.{under_of};

use pads::{Bound, sub_pad_row};
use residue::add_multiple;

// out := a row of modulus `p` without the pads of the senders' keys
pub fn bare(n: usize, k: usize, p: u8, bound: Bound, senders: &[u8], row: &[u8], out: &mut [u8])
    requires sizes { Sizes n k × ((1 < p) × AllBelow p row.now) }
    requires vector { Vector n k senders.now × (Vector n k row.now × Vector n k out.old) }
    ensures { out.new ≡ sub_v p row.now (pad_row (shake_pad bound.round) k p (under_of bound) senders.now n) }
{
    out.copy_from_slice(row);
    sub_pad_row(p, bound, n, k, senders, out);
}

// out := out + a row without its pads
pub fn add_bare(n: usize, k: usize, p: u8, bound: Bound, senders: &[u8], row: &[u8], out: &mut [u8])
    requires sizes { Sizes n k × (1 < p) }
    requires vector { Vector n k senders.now × (Vector n k row.now × Vector n k out.old) }
    ensures { out.new ≡ add_v p out.old (sub_v p row.now (pad_row (shake_pad bound.round) k p (under_of bound) senders.now n)) }
{
    add_multiple(p, 1, row, &mut *out);
    sub_pad_row(p, bound, n, k, senders, out);
}
