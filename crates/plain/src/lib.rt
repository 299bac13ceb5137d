// Plain evaluation: what a circuit computes, on values that nobody hides. Rests on `circuit` for the reader, on `residue` for sums and
// products, on `session` for the checks of a call.

#![tactic(auto)]

mod call;
mod gate;
mod values;
mod wires;

pub use call::plain;
pub use gate::{scaled, sum};
