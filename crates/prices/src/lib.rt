// The price list of a circuit, text in and text out: lines of hexadecimal words are read as a circuit file, and what comes of it is printed, the wires
// with their rows, or why the file is refused, or which line is bad. No more of the text matters than the program reads, 16,384 lines of 9 bytes and one
// byte more (`front_is_enough` in proofs/Enough.antt). Rests on `circuit` for reading, on `counts` for rows, on `checks` for the
// numbers of refusals and on `lists` for what stands in a buffer.

#![tactic(auto)]

mod decimal;
mod line;
mod lines;
mod listing;
mod sheet;
mod text;

pub use sheet::price_list;
