// What a wire's rows are made of: keys and mask of a pair in its record, of a lower wire, and the offsets of a modulus.
ghost use Rattle.std.specs.Prelude.{◌≡◌, ◌+◌, ◌*◌, ◌≤◌, ◌<◌, length};
ghost use Rattle.zero.specs.Turn.{keys_at};
ghost use Rattle.garbling.specs.Source.{Front, Gathers, Operand, Offsets, Own, HeldOf, PairOf, offset_here, wire_here, drawn_here};

use super::turn::Turn;
use contribution::offset_place;
use lists::{nth_piece, scratch};
use rows::Keyed;
use zero::Drawn;

// What the rows of all wires are made of: the file, for the images of tables; all contributions, and where the moduli stand among the offsets in them; the moduli,
// zero keys and masks of all wires.
#[derive(Clone, Copy)]
pub struct Sources<'a> {
    pub file: &'a [u8],
    pub contributions: &'a [u8],
    pub ranks: &'a [u8],
    pub moduli: &'a [u8],
    pub keys: &'a [u8],
    pub masks: &'a [u8],
}

impl Sources<'_> {
    // The parties' keys at one place.
    fn keys_at(self, turn: Turn, at: usize) -> [u8; 1024]
        requires { Gathers turn self.contributions.now × (at + turn.k ≤ turn.size) }
        ensures { Front turn (keys_at turn.n turn.k turn.size self.entry.contributions.now at) result }
    {
        let bytes = turn.n * turn.k;
        let mut keys = scratch();
        let drawn = Drawn {
            n: turn.n,
            k: turn.k,
            size: turn.size,
            contributions: self.contributions,
        };
        drawn.gather(at, &mut keys[..bytes]);
        keys
    }

    // The offsets of modulus `q`.
    pub fn offsets(self, turn: Turn, q: u8) -> [u8; 1024]
        requires { Gathers turn self.contributions.now × Offsets turn self.ranks.now q }
        ensures { Front turn (offset_here turn self.entry.contributions.now self.entry.ranks.now q) result }
    {
        self.keys_at(turn, offset_place(self.ranks, q, turn.k))
    }

    // Pair `j` of the wire's record.
    pub fn drawn(self, turn: Turn, j: usize) -> Keyed
        requires { Own turn self.contributions.now × (j < turn.count) }
        ensures { PairOf turn turn.modulus (drawn_here turn self.entry.contributions.now j) result }
    {
        let key = self.keys_at(turn, turn.at + turn.k * j);
        let at = turn.at + turn.k * turn.count + j;
        let drawn = Drawn {
            n: turn.n,
            k: turn.k,
            size: turn.size,
            contributions: self.contributions,
        };
        let mask = drawn.share_sum(at, turn.modulus);
        Keyed { key, mask }
    }

    // Zero keys and mask of lower wire `a`.
    pub fn lower(self, turn: Turn, a: u16) -> Keyed
        requires { (turn.n * turn.k ≤ 1024) × Operand turn self.keys.now self.masks.now a }
        ensures { HeldOf turn (wire_here turn self.entry.keys.now self.entry.masks.now a) result }
    {
        let bytes = turn.n * turn.k;
        let at = usize::from(a);
        let mut key = scratch();
        key[..bytes].copy_from_slice(nth_piece(self.keys, bytes, at));
        Keyed {
            key,
            mask: self.masks[at],
        }
    }
}
