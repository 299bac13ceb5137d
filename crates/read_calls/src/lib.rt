// The calls that read a circuit and count in it. Each reads the file first; then come the checks on what else it is given, in
// document 01's order. Rests on `circuit` for the reader, `counts` for what is counted, `session` for the checks.

#![tactic(auto)]

mod inputs;
mod summary;

pub use inputs::inputs_of;
pub use summary::{Summary, summary_of};
