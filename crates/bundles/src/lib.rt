// Whole numbers over the wires: an integer is carried by a bundle, wires in a row for the first r primes, as its residues. Splitting an integer,
// joining residues, and the parts of a circuit that add, multiply and scale bundles, as words of the circuit file. specs/Part.antt says which words
// these are. No circuit is read here: what a part does in one is the business of the crate `integers`. Rests on `residue` for the primes, on
// `words` for the encoder, on `writer` for laying a word down, and on `checks` for answers.

#![tactic(auto)]

mod gates;
mod joining;
mod judging;
mod operation;
mod part;
mod primes;
mod splitting;

pub use joining::join;
pub use operation::Operation;
pub use part::write_part;
pub use splitting::split;
