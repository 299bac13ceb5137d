// Garbling: the rows of a circuit, the masks of its inputs and a sheet of output masks for each party, from what all parties contribute. First the zero keys and masks of all wires (crate `zero`),
// then the rows, wire after wire: what a wire's rows are made of is looked up (`own`, `gate`), crate `rows` makes them, and the pass goes on to the next (`pass`); last the
// masks are handed out (`handed`). Rests on those two, on `contribution` for where offsets and records lie, and on the definitions of `scheme`.

#![tactic(auto)]

mod gate;
mod handed;
mod own;
mod pass;
mod turn;

pub use pass::garble;
