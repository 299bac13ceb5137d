// A half: the row of the external value that byte 0 of a key shows, without its pad.
ghost use Rattle.std.specs.Prelude.{◌≡◌, length};
ghost use Rattle.pads.specs.Pad.{shake_pad};
ghost use Rattle.pair.specs.Half.{row_for, open_half};
ghost use Rattle.pair_opening.specs.Ready.{RowHeld, HalfReady};

use lists::nth_piece;
use pads::sub_pad_row;
use pair_checks::HalfAt;

// Row 0 is missing, and all zero; row e is the one with number e − 1.
fn put_row(at: HalfAt, e: u8, rows: &[u8], out: &mut [u8])
    requires { RowHeld at.k e rows.now × (length out.old ≡ at.k) }
    ensures { out.new ≡ row_for at.k rows.now e }
{
    if e == 0 {
        out.fill(0);
    } else {
        out.copy_from_slice(nth_piece(rows, at.k, usize::from(e - 1)));
    }
}

// out := the half opened under a key
pub fn open_half(at: HalfAt, key: &[u8], rows: &[u8], out: &mut [u8])
    requires { HalfReady at key.now rows.now × (length out.old ≡ at.k) }
    ensures { out.new
        ≡ open_half (shake_pad at.round) at.k at.wire at.component at.modulus at.under rows.now key.now }
{
    put_row(at, key[0], rows, &mut *out);
    sub_pad_row(at.modulus, at.bound(), 1, at.k, key, out);
}
