// The external value that the party's own key shows.
ghost use Rattle.std.specs.Prelude.{◌≡◌};
ghost use Rattle.session.specs.Sizes.{Vector};
ghost use Rattle.opening.specs.Step.{multiplier_at};
ghost use Rattle.opening.specs.Ready.{Seated, Inside};

use super::turn::Turn;
use lists::{nth_piece, piece};
use search::multiplier;

// The modulus stands for none, as the definition `multiplier` has it and the search gives it.
// The multiplier of the party's own key among all parties' keys of the wire, the wire's modulus where none fits.
pub fn own_multiplier(turn: Turn, contribution: &[u8], all: &[u8]) -> u8
    requires { Seated turn × (Inside turn contribution.now × Vector turn.n turn.k all.now) }
    ensures { result ≡ multiplier_at turn contribution.now all.now }
{
    let k = turn.k;
    let zero = piece(contribution, turn.zero, k);
    let offset = piece(contribution, turn.offset, k);
    let key = nth_piece(all, k, turn.party);
    multiplier(turn.modulus, zero, offset, key)
}
