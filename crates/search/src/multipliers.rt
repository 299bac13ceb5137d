// The external value of an opened wire is the multiplier α with key = zero key + α times the offset.
ghost use Rattle.std.specs.Prelude.{◌≡◌, ◌/◌, ◌<◌, length};
ghost use Rattle.residue.specs.Residue.{add, mul};
ghost use Rattle.search.specs.Search.{multiplier};

use residue::{multiple_added, reciprocal, reduce};

// One component of the key of external value `e`, with `m` the reciprocal of `p`, so that nothing is divided.
fn component(p: u8, m: u32, zero: u8, e: u8, offset: u8) -> u8
    requires { (0 < p) × (m ≡ 65536 / p) }
    ensures { result ≡ add p zero (mul p e offset) }
{
    reduce(p, m, multiple_added(zero, e, offset))
}

// The first multiplier that fits, `p` where none does. Where the offset's first component is not 0, all multipliers but one fail at
// the first component.
pub fn multiplier(p: u8, zero: &[u8], offset: &[u8], key: &[u8]) -> u8
    requires p_nonzero { 0 < p }
    requires zero_len { (length zero.now ≡ length key.now) × (length offset.now ≡ length key.now) }
    ensures { result ≡ multiplier p zero.now offset.now key.now }
{
    let m = reciprocal(p);
    let mut alpha = 0;
    // Document 01 has the search left by label, with the multiplier as the break's value; and p for none, as the definition `multiplier`.
    'search: loop {
        if alpha == p {
            break 'search p;
        }
        for (i, byte) in key.iter().enumerate() {
            if component(p, m, zero[i], alpha, offset[i]) != *byte {
                alpha += 1;
                continue 'search;
            }
        }
        break 'search alpha;
    }
}
