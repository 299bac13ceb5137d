// What all turns of the pass look up.
ghost use Rattle.std.specs.Prelude.{◌≡◌, ◌≤◌, length};
ghost use Rattle.pair_garbling.specs.Source.{Offset, offset_here};

use contribution::offset_place;
use lists::piece;

// The file with its tables, the draw and the places of the offsets in it, and the moduli of the wires.
#[derive(Clone, Copy)]
pub struct Source<'a> {
    pub file: &'a [u8],
    pub draw: &'a [u8],
    pub ranks: &'a [u8],
    pub moduli: &'a [u8],
}

impl<'a> Source<'a> {
    // The offset of modulus q, of K bytes.
    pub fn offset(self, q: u8, k: usize) -> &'a [u8]
        requires { Offset k self.draw.now self.ranks.now q × (k ≤ 128) }
        ensures { (result.now ≡ offset_here k self.entry.draw.now self.entry.ranks.now q) × (length result.now ≡ k) }
    {
        piece(self.draw, offset_place(self.ranks, q, k), k)
    }
}
