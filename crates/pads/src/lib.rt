// Pads: what hides the entries of a row. The pad of one sender for one receiver is SHAKE256 of the seven fields of a pad input, read as
// 8-byte numbers, each reduced modulo the receiving modulus. The functions here put the pads of all senders for all receivers on a
// row that is lent, or take them off: entry by entry, and each entry sender by sender. Rests on the sponge of the crate shake, on
// residue and on lists.

#![tactic(auto)]

mod entries;
mod input;
mod memory;
mod remainder;
mod row;

pub use input::{Bound, pad_numbers};
pub use row::{add_pad_row, sub_pad_row};
