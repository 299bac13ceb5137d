// One turn of the pass.
ghost use Rattle.std.specs.Prelude.{◌≡◌};

use pair_checks::HalfAt;

// Key length, round, the wire at hand and its modulus; `over` is the modulus of the wire that a projection is of.
#[derive(Clone, Copy)]
pub struct Turn {
    pub k: usize,
    pub round: u32,
    pub wire: u32,
    pub modulus: u8,
    pub over: u8,
}

impl Turn {
    // A half of the gate that makes the wire at hand, under a key of modulus `under`.
    pub fn half(self, under: u8, component: u8) -> HalfAt
        ensures { result ≡ record { k = self.k; round = self.round; wire = self.wire; component = component; under = under; modulus = self.modulus } }
    {
        HalfAt {
            k: self.k,
            round: self.round,
            wire: self.wire,
            component,
            under,
            modulus: self.modulus,
        }
    }
}
