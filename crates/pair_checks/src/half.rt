// Where a half stands, for garbling and for opening.
ghost use Rattle.std.specs.Prelude.{◌≡◌};

use pads::Bound;

// Key length, round, the wire that its gate makes, which half of the gate it is, the modulus of the keys that it is under and the one that it gives.
#[derive(Clone, Copy)]
pub struct HalfAt {
    pub k: usize,
    pub round: u32,
    pub wire: u32,
    pub component: u8,
    pub under: u8,
    pub modulus: u8,
}

impl HalfAt {
    // What its pads are bound to.
    pub fn bound(self) -> Bound
        ensures { result ≡ record { round = self.round; modulus = self.under; wire = self.wire; component = self.component } }
    {
        Bound {
            round: self.round,
            modulus: self.under,
            wire: self.wire,
            component: self.component,
        }
    }
}
