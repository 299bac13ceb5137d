// The checks that several calls share, 11 to 15 and 28: parties, the party asked for, owners of inputs, parties that outputs name, lengths, values. Rests on `circuit` for the
// reader, on `counts` for what a circuit's arrays hold, on `checks` for answers and `lists` for searches.

#![tactic(auto)]

mod lengths;
mod owners;
mod partakers;
mod parties;
mod seats;
mod values;

pub use lengths::lengths_checked;
pub use owners::owners_checked;
pub use partakers::partakers_checked;
pub use parties::{parties_checked, party_checked, session_checked};
pub use seats::{AskedSeat, AskedSession, Seat, Session};
pub use values::values_checked;
