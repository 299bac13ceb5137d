// The calls that make garbled rows and open them. Each reads the file first; then come the checks on what else it is given, in document 01's order; only then is
// anything written. Rests on `garbling` and `opening` for the work, on `session`, `contribution`, `party_calls` and `meter` for the checks, and on `calls` for what the
// calls are to do.

#![tactic(auto)]

mod garbled;
mod opened;

pub use garbled::garble;
pub use opened::open_rows;
