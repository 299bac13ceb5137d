// The zero keys and the masks of all wires, from what all parties contribute. A record is found by a cursor that goes with the wires, what all parties have at one
// place is gathered (`shares`), and the free gates add and scale what stands below them (`zero`, `masks`). Rests on `residue` for key vectors, on `contribution` for
// where records lie, and on the definitions of `scheme`.

#![tactic(auto)]

mod masks;
mod shares;
mod zero;

pub use masks::wire_masks;
pub use shares::Drawn;
pub use zero::zero_keys;
