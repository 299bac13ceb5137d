// The rows of one wire, by its recipe, from the contributions and from the zero keys and masks of lower wires.
ghost use Rattle.std.specs.Prelude.{◌≡◌, ◌+◌, ◌*◌, length};
ghost use Rattle.garbling.specs.Source.{made_of, table_here, product_here, choice_here, rows_here, Drawn, OverTable, OfPair, OfChoice, Sourced};

use super::own::Sources;
use super::turn::Turn;
use counts::{Lookup, Recipe};
use rows::{Made, choice_rows, product_rows, table_rows};
use words::{Choice, Pair};

impl From<Turn> for Made {
    ghost from_gives = { λ turn made. made ≡ made_of turn };

    fn from(turn: Turn) -> Made {
        Made {
            n: turn.n,
            k: turn.k,
            round: turn.round,
            wire: turn.wire,
            modulus: turn.modulus,
        }
    }
}

impl Sources<'_> {
    // A table over a wire of modulus `q`.
    fn put_table(self, turn: Turn, g: Lookup, q: u8, out: &mut [u8])
        requires drawn { Drawn turn 1 self.contributions.now self.ranks.now
            × OverTable turn self.ranks.now self.keys.now self.masks.now self.file.now g q }
        requires out_len { length out.old ≡ q * (turn.n * turn.k) }
        ensures { out.new ≡ table_here turn self.entry.contributions.now self.entry.ranks.now self.entry.keys.now self.entry.masks.now self.entry.file.now g q }
    {
        let bytes = turn.n * turn.k;
        let images = g.images;
        let offset = self.offsets(turn, q);
        let given = self.offsets(turn, turn.modulus);
        let a = self.lower(turn, g.a);
        let z = self.drawn(turn, 0);
        table_rows(
            Made::from(turn),
            self.file,
            images,
            q,
            a,
            &offset[..bytes],
            z,
            &given[..bytes],
            out,
        );
    }

    fn put_product(self, turn: Turn, g: Pair, out: &mut [u8])
        requires drawn { Drawn turn 2 self.contributions.now self.ranks.now × OfPair turn self.keys.now self.masks.now g }
        requires out_len { length out.old ≡ 2 * turn.modulus * (turn.n * turn.k) }
        ensures { out.new ≡ product_here turn self.entry.contributions.now self.entry.ranks.now self.entry.keys.now self.entry.masks.now g }
    {
        let bytes = turn.n * turn.k;
        let offset = self.offsets(turn, turn.modulus);
        let a = self.lower(turn, g.a);
        let b = self.lower(turn, g.b);
        let z = self.drawn(turn, 0);
        let first = self.drawn(turn, 1);
        product_rows(Made::from(turn), &offset[..bytes], a, b, z, first, out);
    }

    // The rows of a choice, once its operands are at hand: `d` is the difference of its two wires.
    fn put_choice(self, turn: Turn, g: Choice, out: &mut [u8])
        requires drawn { Drawn turn 3 self.contributions.now self.ranks.now
            × OfChoice turn self.ranks.now self.keys.now self.masks.now g }
        requires out_len { length out.old ≡ (2 * turn.modulus + 2) * (turn.n * turn.k) }
        ensures { out.new ≡ choice_here turn self.entry.contributions.now self.entry.ranks.now self.entry.keys.now self.entry.masks.now g }
    {
        let bytes = turn.n * turn.k;
        let offset = self.offsets(turn, turn.modulus);
        let pair = self.offsets(turn, 2);
        let bit = self.lower(turn, g.bit);
        let a = self.lower(turn, g.a);
        let b = self.lower(turn, g.b);
        let d = b.less(turn.modulus, bytes, a);
        let z = self.drawn(turn, 0);
        let first = self.drawn(turn, 1);
        let second = self.drawn(turn, 2);
        choice_rows(
            Made::from(turn),
            &offset[..bytes],
            &pair[..bytes],
            bit,
            d,
            z,
            first,
            second,
            out,
        );
    }

    // The rows of the wire at hand.
    pub fn gate_rows(self, turn: Turn, how: Recipe, out: &mut [u8])
        requires { Sourced turn self.contributions.now self.ranks.now self.moduli.now self.keys.now self.masks.now self.file.now how out.old }
        ensures { out.new ≡ rows_here turn self.entry.contributions.now self.entry.ranks.now self.entry.moduli.now self.entry.keys.now self.entry.masks.now
            self.entry.file.now how }
    {
        match how {
            Recipe::Entered | Recipe::Sum(_) | Recipe::Multiple(_) => {}
            Recipe::Table(g) => {
                let q = self.moduli[g.a as usize];
                self.put_table(turn, g, q, out);
            }
            Recipe::Product(g) => self.put_product(turn, g, out),
            Recipe::Choice(g) => self.put_choice(turn, g, out),
        }
    }
}
