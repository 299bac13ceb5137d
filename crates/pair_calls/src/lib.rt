// The calls of the two-party form: reading a circuit for two, the input keys, garbling, opening, and decoding. Each reads the file first; then come the checks on what else it is
// given, in document 01's order with the numbers of document 02; only then is anything written. Rests on `pair` for what the calls are to do, on `pair_garbling` and
// `pair_opening` for the work, on `party_calls` for decoding, on `pair_checks`, `session`, `contribution` and `meter` for the checks.

#![tactic(auto)]

mod asked;
mod decoded;
mod drawn;
mod garbled;
mod keys;
mod opened;
mod reading;

pub use asked::AskedRound;
pub use decoded::pair_decode;
pub use garbled::pair_garble;
pub use keys::pair_input_keys;
pub use opened::pair_open;
pub use reading::pair_read;
