// A wire that needs no rows: the sum or the multiple of keys and external values alike.
ghost use Rattle.std.specs.Prelude.{[]};
ghost use Rattle.counts.specs.declared.recipe.Recipe.TheVariants.{Sum, Multiple};
ghost use Rattle.session.specs.Sizes.{Vector};
ghost use Rattle.scheme.specs.Opening.{nothing};
ghost use Rattle.opening.specs.Step.{Made, open_by};
ghost use Rattle.opening.specs.Ready.{Seated, Lower, PairReady};

use super::before::Before;
use super::turn::Turn;
use lists::nth_piece;
use residue::{key_of, scale};
use words::{Pair, Scaling};

impl Before<'_> {
    pub fn sum(self, turn: Turn, g: Pair, out: &mut [u8]) -> u8
        requires seated { Seated turn × Vector turn.n turn.k out.old }
        requires pair_ready { PairReady turn self.keys.now self.externals.now g }
        ensures { Made turn (open_by turn nothing [] [] self.entry.keys.now self.entry.externals.now (Sum g)) out.new result }
    {
        let m = turn.n * turn.k;
        let a = g.a as usize;
        let b = g.b as usize;
        key_of(
            turn.modulus,
            nth_piece(self.keys, m, a),
            1,
            nth_piece(self.keys, m, b),
            out,
        );
        residue::add(turn.modulus, self.externals[a], self.externals[b])
    }

    pub fn multiple(self, turn: Turn, g: Scaling, out: &mut [u8]) -> u8
        requires seated { Seated turn × Vector turn.n turn.k out.old }
        requires lower { Lower turn turn.modulus self.keys.now self.externals.now g.a }
        ensures { Made turn (open_by turn nothing [] [] self.entry.keys.now self.entry.externals.now (Multiple g)) out.new result }
    {
        let m = turn.n * turn.k;
        let a = g.a as usize;
        out.copy_from_slice(nth_piece(self.keys, m, a));
        scale(turn.modulus, g.constant, out);
        residue::mul(turn.modulus, g.constant, self.externals[a])
    }
}
