// What a circuit counts: the rows that garbling writes, the records that a party contributes, the inputs of a party, the moduli in
// use. Rows and records go by one definition, the recipe: how a wire's gate is garbled. Rests on `words` for wires, on `circuit`
// for circuits, on `lists` for sums and on `residue` for squares.

#![tactic(auto)]

mod bytes;
mod count;
mod modulus;
mod recipe;

pub use bytes::row_bytes;
pub use count::{inputs_of, modulus_of, owned, record_count, records, row_count, rows};
pub use modulus::{marks, marks_set, moduli, moduli_used};
pub use recipe::{Images, Lookup, Recipe, recipe_of};
