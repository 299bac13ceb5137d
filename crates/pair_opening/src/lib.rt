// Opening in the two-party form: from the inputs' keys and the garbled rows one key and one external byte per wire. A half's row loses its pad (`half`); a product is the sum
// of two halves and a multiple (`product`); a wire is opened by its gate (`wire`), all wires in order (`pass`). The external value is byte 0 of the key, so nothing is
// searched for and nothing can fail. Rests on `pads` for what hides a row, on `pair_checks` for how many rows a wire has, and on `pair` for what is opened.

#![tactic(auto)]

mod half;
mod pass;
mod product;
mod turn;
mod wire;

pub use pass::open_wires;
