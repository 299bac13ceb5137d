// A wire that is opened from its gate's rows.
ghost use Rattle.std.specs.Prelude.{◌≡◌, ◌*◌, ◌<◌, get_or};
ghost use Rattle.lists.specs.Blocks.{nth_piece};
ghost use Rattle.residue.specs.Residue.{sub};
ghost use Rattle.residue.specs.Vector.{sub_v};
ghost use Rattle.counts.specs.declared.recipe.Recipe.TheVariants.{Table, Product, Choice as Chosen};
ghost use Rattle.session.specs.Sizes.{Vector};
ghost use Rattle.scheme.specs.Opening.{nothing, added};
ghost use Rattle.opening.specs.Step.{Made, held, lower, open_by, held_back};
ghost use Rattle.opening.specs.Ready.{Seated, Lower, TableReady, ProductReady, ChoiceReady};

use super::before::{Before, Lent};
use super::gates::{open_choice, open_product, open_table};
use super::own::own_multiplier;
use super::turn::Turn;
use counts::Lookup;
use lists::{nth_piece, scratch};
use residue::add_multiple;
use words::{Choice, Pair};

impl Before<'_> {
    pub fn by_table(self, turn: Turn, g: Lookup, lent: Lent, out: &mut [u8]) -> u8
        requires seated { Seated turn × Vector turn.n turn.k out.old }
        requires table_ready { TableReady turn lent.contribution.now lent.rows.now self.keys.now self.externals.now g }
        ensures { Made turn (open_by turn nothing lent.entry.contribution.now lent.entry.rows.now self.entry.keys.now self.entry.externals.now (Table g)) out.new result }
    {
        let a = g.a as usize;
        let keys = nth_piece(self.keys, turn.n * turn.k, a);
        open_table(turn, keys, self.externals[a], lent.rows, &mut *out);
        own_multiplier(turn, lent.contribution, &*out)
    }

    pub fn by_product(self, turn: Turn, g: Pair, lent: Lent, out: &mut [u8]) -> u8
        requires seated { Seated turn × Vector turn.n turn.k out.old }
        requires product_ready { ProductReady turn lent.contribution.now lent.rows.now self.keys.now self.externals.now g }
        ensures { Made turn (open_by turn nothing lent.entry.contribution.now lent.entry.rows.now self.entry.keys.now self.entry.externals.now (Product g)) out.new result }
    {
        let m = turn.n * turn.k;
        let a = g.a as usize;
        let b = g.b as usize;
        let first = nth_piece(self.keys, m, a);
        let second = nth_piece(self.keys, m, b);
        open_product(
            turn,
            first,
            self.externals[a],
            second,
            self.externals[b],
            lent.rows,
            &mut *out,
        );
        own_multiplier(turn, lent.contribution, &*out)
    }

    // The difference b − a: its keys go to `d`, its external value is given.
    fn differing(self, turn: Turn, g: Choice, d: &mut [u8]) -> u8
        requires seated { Seated turn × Vector turn.n turn.k d.old }
        requires lower { Lower turn turn.modulus self.keys.now self.externals.now g.a × Lower turn turn.modulus self.keys.now self.externals.now g.b }
        ensures { (result ≡ sub turn.modulus (get_or self.entry.externals.now g.b 0) (get_or self.entry.externals.now g.a 0))
            × (d.new ≡ sub_v turn.modulus (nth_piece self.entry.keys.now (turn.n * turn.k) g.b) (nth_piece self.entry.keys.now (turn.n * turn.k) g.a)) }
    {
        let m = turn.n * turn.k;
        let a = g.a as usize;
        let b = g.b as usize;
        residue::difference(
            turn.modulus,
            nth_piece(self.keys, m, b),
            nth_piece(self.keys, m, a),
            d,
        );
        residue::sub(turn.modulus, self.externals[b], self.externals[a])
    }

    // What the rows of a choice give, before the first branch is added: the external value of h. `d` is work memory for the keys of the difference.
    fn held_back(self, turn: Turn, g: Choice, lent: Lent, d: &mut [u8], out: &mut [u8]) -> u8
        requires seated { Seated turn × (Vector turn.n turn.k d.old × Vector turn.n turn.k out.old) }
        requires choice_ready { ChoiceReady turn lent.contribution.now lent.rows.now self.keys.now self.externals.now g }
        ensures { Made turn (held_back turn lent.entry.contribution.now lent.entry.rows.now self.entry.keys.now self.entry.externals.now g) out.new result }
    {
        let alpha = self.differing(turn, g, &mut *d);
        let bit = g.bit as usize;
        let v = nth_piece(self.keys, turn.n * turn.k, bit);
        open_choice(
            turn,
            v,
            self.externals[bit],
            &*d,
            alpha,
            lent.rows,
            &mut *out,
        );
        own_multiplier(turn, lent.contribution, &*out)
    }

    // Wire `a` is added to what the rows gave, keys and external value.
    fn added(self, turn: Turn, a: u16, found: u8, out: &mut [u8]) -> u8
        requires seated { Seated turn × (Vector turn.n turn.k out.old × (found < turn.modulus)) }
        requires lower { Lower turn turn.modulus self.keys.now self.externals.now a }
        ensures { Made turn (added turn.modulus (held out.old found) (lower (turn.n * turn.k) self.entry.keys.now self.entry.externals.now a)) out.new result }
    {
        let at = a as usize;
        let keys = nth_piece(self.keys, turn.n * turn.k, at);
        add_multiple(turn.modulus, 1, keys, out);
        residue::add(turn.modulus, found, self.externals[at])
    }

    pub fn by_choice(self, turn: Turn, g: Choice, lent: Lent, out: &mut [u8]) -> u8
        requires seated { Seated turn × Vector turn.n turn.k out.old }
        requires choice_ready { ChoiceReady turn lent.contribution.now lent.rows.now self.keys.now self.externals.now g }
        ensures { Made turn (open_by turn nothing lent.entry.contribution.now lent.entry.rows.now self.entry.keys.now self.entry.externals.now (Chosen g)) out.new result }
    {
        let m = turn.n * turn.k;
        let mut d = scratch::<1024>();
        let found = self.held_back(turn, g, lent, &mut d[..m], &mut *out);
        if found < turn.modulus {
            self.added(turn, g.a, found, out)
        } else {
            turn.modulus
        }
    }
}
