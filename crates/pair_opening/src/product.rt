// A product: the first half under a's key, the second under b's, and b's external value times a's key.
ghost use Rattle.std.specs.Prelude.{◌≡◌, ◌-◌, ◌*◌, length};
ghost use Rattle.residue.specs.Vector.{add_v};
ghost use Rattle.pads.specs.Pad.{shake_pad};
ghost use Rattle.pair.specs.Half.{open_half};
ghost use Rattle.pair_opening.specs.Ready.{Seated, Lines, KeyReady};
ghost use Rattle.pair_opening.specs.Step.{product_at};

use super::half::open_half;
use super::turn::Turn;
use lists::{piece, scratch};
use residue::add_multiple;

// out := out + the second half, whose rows stand behind the first's
fn add_second(turn: Turn, b: &[u8], rows: &[u8], out: &mut [u8])
    requires { Seated turn × (KeyReady turn turn.modulus b.now × (Lines turn (turn.modulus - 1) rows.now × (length out.old ≡ turn.k))) }
    ensures { out.new ≡ add_v turn.modulus out.old
        (open_half (shake_pad turn.round) turn.k turn.wire 1 turn.modulus turn.modulus rows.now b.now) }
{
    let p = turn.modulus;
    let mut room = scratch::<128>();
    let work = &mut room[..turn.k];
    open_half(turn.half(p, 1), b, rows, &mut *work);
    add_multiple(p, 1, &*work, out);
}

pub fn open_product(turn: Turn, a: &[u8], b: &[u8], rows: &[u8], out: &mut [u8])
    requires seated { Seated turn × (Lines turn (2 * (turn.modulus - 1)) rows.now × (length out.old ≡ turn.k)) }
    requires key_ready { KeyReady turn turn.modulus a.now × KeyReady turn turn.modulus b.now }
    ensures { out.new ≡ product_at turn rows.now a.now b.now }
{
    let p = turn.modulus;
    let size = usize::from(p - 1) * turn.k;
    let first = piece(rows, 0, size);
    open_half(turn.half(p, 0), a, first, &mut *out);
    let second = piece(rows, size, size);
    add_second(turn, b, second, &mut *out);
    add_multiple(p, b[0], a, out);
}
