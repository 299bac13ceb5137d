// One turn of the pass.
ghost use Rattle.std.specs.Prelude.{◌≡◌};
ghost use Rattle.pair_garbling.specs.Source.{half_in};

use pair_checks::HalfAt;

// Key length, round, the wire at hand and its modulus; where its zero key stands in the draw, if it is an input, and its place among the zero keys of all wires.
// A turn of opening has other places: the two share four numbers and no more.
#[derive(Clone, Copy)]
pub struct Turn {
    pub k: usize,
    pub round: u32,
    pub wire: u32,
    pub modulus: u8,
    pub at: usize,
    pub place: usize,
}

impl Turn {
    // A half of the gate that makes the wire at hand, under keys of modulus `under`.
    pub fn half(self, under: u8, component: u8) -> HalfAt
        ensures { result ≡ half_in self under component }
    {
        HalfAt {
            k: self.k,
            round: self.round,
            wire: self.wire,
            component,
            under,
            modulus: self.modulus,
        }
    }
}
