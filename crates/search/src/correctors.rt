// After a select's chooser, only the corrector named by the bit's external value is opened.
ghost use Rattle.std.specs.Prelude.{◌≡◌, ◌+◌, ◌≤◌, length};
ghost use Rattle.lists.specs.Blocks.{part};
ghost use Rattle.search.specs.Corrector.{named_corrector};

use lists::piece;

// The `width` bytes from place `at` on of the corrector that `bit` names: of `first` for 0, else of `second`. The result may be of
// either, so both are lent for one lifetime.
pub fn chosen_corrector<'a>(
    first: &'a [u8],
    second: &'a [u8],
    bit: u8,
    at: usize,
    width: usize,
) -> &'a [u8]
    requires { (at + width ≤ length first.now) × (at + width ≤ length second.now) }
    ensures { (result.now ≡ part (named_corrector bit first.now second.now) at width) × (length result.now ≡ width) }
{
    let named = if bit == 0 { first } else { second };
    piece(named, at, width)
}
