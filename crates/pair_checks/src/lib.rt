// The two-party form on lent bytes: how many rows a circuit has, where a half of a gate stands, and the checks that stand beside those of the n-party calls: selects in
// the file, the bytes and the offsets of a draw, the bytes of the rows. Rests on `pair` for what is counted and checked, on `counts` and `contribution` for moduli and
// runs of bytes, on `pads` for what a pad is bound to, on `checks` for answers.

#![tactic(auto)]

mod count;
mod draw;
mod half;
mod row_bytes;
mod selects;
mod units;

pub use count::{row_count, rows, rows_size};
pub use draw::{draw_checked, draw_size};
pub use half::HalfAt;
pub use row_bytes::rows_checked;
pub use selects::selects_checked;
pub use units::units_checked;
