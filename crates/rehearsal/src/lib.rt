// A round, played: one function makes every call of document 01's round on lent memory, for all parties, and its contract is demand 3. The calls are the
// functions of crate `engine`, each of which `engine_c` exports under its name with the same promise. What a host does between them is in `hosts`,
// how long its buffers are in `memory`, the calls that each party makes in `masking` and `parties`, the whole in `whole`. That the calls' promises
// come to demand 3 is a law of `round`.

#![tactic(auto)]

mod hosts;
mod masking;
mod memory;
mod parties;
mod whole;

pub use whole::rehearse;
