// Two leaves of opening: the search for the multiplier that an opened key shows (`multipliers`), and the choice of the corrector
// that the bit's external value names (`correctors`); beside them the comparison of two byte lists (`bytes`). Rests on `residue`,
// for sums and products modulo p without a division, and on `lists`, for parts of a lent buffer and the lowest number of which a
// test holds. What each function gives is defined in `specs/`; the laws of the comparison and of the search stand in `proofs/`.

#![tactic(auto)]

mod bytes;
mod correctors;
mod multipliers;

pub use bytes::same_bytes;
pub use correctors::chosen_corrector;
pub use multipliers::multiplier;
