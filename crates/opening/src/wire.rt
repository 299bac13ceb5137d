// One wire, by its recipe.
ghost use Rattle.std.specs.Prelude.{◌≡◌};
ghost use Rattle.session.specs.Sizes.{Vector};
ghost use Rattle.scheme.specs.Opening.{open_input};
ghost use Rattle.opening.specs.Step.{Made, open_at};
ghost use Rattle.opening.specs.Ready.{Seated, InputReady, Ready};

use super::before::{Before, Lent};
use super::turn::Turn;
use counts::Recipe;
use lists::nth_piece;

// An input's keys and external value are given.
fn input(turn: Turn, externals: &[u8], keys: &[u8], out: &mut [u8]) -> u8
    requires seated { Seated turn × Vector turn.n turn.k out.old }
    requires input_ready { InputReady turn externals.now keys.now }
    ensures { Made turn (open_input turn.n turn.k externals.now keys.now turn.wire) out.new result }
{
    let w = turn.wire as usize;
    out.copy_from_slice(nth_piece(keys, turn.n * turn.k, w));
    externals[w]
}

impl Before<'_> {
    // All parties' keys of the wire at hand, and its external value: the wire's modulus where no multiplier fits.
    pub fn open_wire(self, turn: Turn, how: Recipe, lent: Lent, out: &mut [u8]) -> u8
        requires seated { Seated turn × Vector turn.n turn.k out.old }
        requires ready { Ready turn lent.contribution.now lent.externals.now lent.keys.now lent.rows.now self.keys.now self.externals.now how }
        ensures { Made turn (open_at turn lent.entry.contribution.now lent.entry.externals.now lent.entry.keys.now lent.entry.rows.now self.entry.keys.now self.entry.externals.now how)
            out.new result }
    {
        match how {
            Recipe::Entered => input(turn, lent.externals, lent.keys, out),
            Recipe::Sum(g) => self.sum(turn, g, out),
            Recipe::Multiple(g) => self.multiple(turn, g, out),
            Recipe::Table(g) => self.by_table(turn, g, lent, out),
            Recipe::Product(g) => self.by_product(turn, g, lent, out),
            Recipe::Choice(g) => self.by_choice(turn, g, lent, out),
        }
    }
}
