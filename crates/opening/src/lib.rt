// Opening: what one party opens of the garbled rows, wire after wire. A row loses its pads (`row`); a gate's rows give all parties' keys of its wire (`gates`); the
// party's own key then shows the external value (`own`). A wire is opened by its recipe (`free`, `rowed`, `wire`), all wires in order (`pass`). Rests on `pads` for what
// hides a row, on `search`, on `contribution` for where a party's offsets and records lie, and on `scheme` for what is opened.

#![tactic(auto)]

mod before;
mod free;
mod gates;
mod own;
mod pass;
mod row;
mod rowed;
mod turn;
mod wire;

pub use pass::open_wires;
pub use row::{add_bare, bare};
