// A round of two, rehearsed: one function makes every call of it, on lent memory, and has order 8's claim as its contract. Rests on `pair_round` for
// the claim and on `engine` for the calls, which `engine_c` exports.

#![tactic(auto)]

mod whole;

pub use whole::{Asked, rehearse};
