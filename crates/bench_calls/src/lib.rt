// The functions that bench/run calls from C. Rests on `keccak` and `pads`.

#![tactic(auto)]

ghost use Rattle.std.specs.Prelude.{◌≡◌, ◌*◌, length};
ghost use Rattle.keccak.specs.Keccak.{keccak_f};
ghost use Rattle.shake.specs.Numbers.{numbers};
ghost use Rattle.shake.specs.Shake.{shake256};
ghost use Rattle.pads.specs.Pad.{pad_input, bound, placed};

use pads::Bound;

// One permutation in place.
#[unsafe(no_mangle)]
pub extern "C" fn bench_permutation(state: &mut [u64; 25])
    ensures { state.new ≡ keccak_f state.old }
{
    let before = *state;
    let after = keccak::keccak_f(before);
    *state = after;
}

// The numbers of a pad before they are reduced, for a sender's key; the other fields of its input are 0.
#[unsafe(no_mangle)]
pub extern "C" fn bench_numbers(key: &[u8], out: &mut [u64])
    ensures { out.new ≡ numbers (shake256 (pad_input 0 (bound (placed 0 0 0) 0 key.now)) (8 * length out.old)) }
{
    let none = Bound {
        round: 0,
        modulus: 0,
        wire: 0,
        component: 0,
    };
    pads::pad_numbers(none, 0, key, out);
}
