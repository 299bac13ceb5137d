// Garbling for two: the rows of all gates and the masks of the outputs, from what the garbler drew. One pass over the wires makes each wire's zero key and its rows
// together, since a projection or a product chooses its zero key by its own missing row. Rests on `rows` and `pads` for rows of one party, on `residue` for key
// vectors, on `contribution` for where offsets lie, on `pair_checks` for how many rows a wire has, and on the definitions of `pair`.

#![tactic(auto)]

mod gates;
mod halves;
mod pass;
mod source;
mod turn;
mod wires;

pub use pass::garble;
