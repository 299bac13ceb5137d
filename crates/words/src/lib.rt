// One word of a circuit file: what it says, a kind with its fields, and what that is refused for or stands for where it stands; and the word that
// says it. Rests on `residue` for the primes and on `checks` for the reasons.

#![tactic(auto)]

mod bits;
mod due;
mod encoding;
mod entries;
mod gate;
mod item;
mod items;
mod reading;

pub use bits::{named_by, word_at};
pub use encoding::encode;
pub use entries::good_entries;
pub use gate::{Choice, Due, Gate, Owned, Pair, Projection, Scaling, Step, Wire};
pub use item::Item;
pub use items::{branches_item, judge};
pub use reading::read_word;
