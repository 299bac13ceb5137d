// The circuit file: bytes read into a circuit, or refused with the reason and the word. Rests on `words` for what a single word
// does where it stands. What is true of every accepted circuit is `AcceptedCircuit` of specs/Accepted.antt, proved from the
// definition in proofs/Accepted.antt.

#![tactic(auto)]

mod blank;
mod naming;
mod reader;
mod table;

pub use naming::may_read;
pub use reader::read;
use words::Wire;

// A circuit that was read: `made` wires, the first `inputs` of them inputs, and `given` outputs, each with the parties that it names.
#[derive(Clone, Copy)]
pub struct Circuit {
    pub wires: [Wire; 1024],
    pub outputs: [u16; 256],
    pub named: [u8; 256],
    pub made: usize,
    pub inputs: usize,
    pub given: usize,
}
