// The garbled rows of one gate, from the keys, masks and offsets that they are made of: a row is a message, a linear form of them, under the pads of all senders' keys. Rests
// on `pads` for what hides a row and on `residue` for key vectors; `scheme` defines the rows.

#![tactic(auto)]

mod factors;
mod gates;
mod keyed;
mod rows;

pub use factors::{image_of, linear_factors, table_factors};
pub use gates::{Made, choice_rows, product_rows, table_rows};
pub use keyed::Keyed;
pub use rows::{Line, Row, put_keyed_row, put_row};
