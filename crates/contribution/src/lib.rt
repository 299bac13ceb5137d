// A party's contribution on lent bytes: its size, the places of its offsets and records, and the checks of contributions, keys and rows, 16 to 18.
// Rests on `scheme` for what is laid out and checked, on `counts` for what a circuit counts, on `checks` for answers.

#![tactic(auto)]

mod contributed;
mod keyed;
mod offset;
mod places;
mod run;

pub use contributed::{contributions_checked, first_in_offsets};
pub use keyed::{first_in_keys, keys_checked, rows_checked};
pub use offset::offsets_checked;
pub use places::{contribution_size, first_record, offset_place, ranks, record_keys, record_size};
pub use run::{Run, first_at_least, first_in_runs};
