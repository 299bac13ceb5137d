// The calls as C has them: each function here is one of include/lupiknam.h, which `engine_c` exports. Refused or not, its contract gives the
// number and place that it answers and every number and byte lent to it. Thin: the calls themselves stand in `read_calls`, `plain`,
// `party_calls`, `row_calls`, `pair_calls`, `writer`, `bundles` and `meter`.

#![tactic(auto)]

mod answer;
mod bundle;
mod carried;
mod garbled;
mod party;
mod plain_call;
mod read;
mod two;
mod write;

pub use answer::Reported;
pub use bundle::{
    lupiknam_bundle_add, lupiknam_bundle_join, lupiknam_bundle_multiply, lupiknam_bundle_scale,
    lupiknam_bundle_split,
};
pub use carried::lupiknam_meter_carry;
pub use garbled::{lupiknam_garble, lupiknam_open};
pub use party::{lupiknam_decode, lupiknam_externals, lupiknam_input_keys};
pub use plain_call::lupiknam_plain;
pub use read::{lupiknam_inputs_of, lupiknam_read};
pub use two::{
    lupiknam_pair_decode, lupiknam_pair_garble, lupiknam_pair_input_keys, lupiknam_pair_open,
    lupiknam_pair_read,
};
pub use write::{lupiknam_records, lupiknam_write};
