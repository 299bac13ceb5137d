// The calls by which parties prepare and end a round: the external values of a party's own inputs (`masking`), its input keys (`keys`), and decoding
// (`decoding`). Each reads the file first; then come the checks on what else it is given, in document 01's order, with 28 after 13. Rests on `circuit` for the reader, on `session` and
// `contribution` for the checks, and on `calls` for what the calls are to do.

#![tactic(auto)]

mod decoding;
mod either;
mod keys;
mod masking;
mod tables;

pub use decoding::{decode, decode_behind};
pub use keys::{input_keys, put_keys};
pub use masking::externals;
