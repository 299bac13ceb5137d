// The parties that a file's outputs name. The outputs' words stand one after another, directly before the end word, so that one look back at the end
// finds them all.
ghost use Rattle.std.specs.Prelude.{◌≡◌, ◌≤◌};
ghost use Rattle.circuit.specs.File.{words_in};
ghost use Rattle.circuit.specs.Entry.{NamesHeld};
ghost use Rattle.circuit.specs.Named.{may_read};

use lists::zeros;
use words::{named_by, word_at};

// Of the `count` words before an index.
pub fn named_before(file: &[u8], at: usize, count: usize) -> [u8; 256]
    requires { (at ≤ words_in file.now) × ((count ≤ at) × (count ≤ 256)) }
    ensures { NamesHeld file.now at count result }
{
    let first = at - count;
    let mut named = zeros();
    for i in 0..count {
        named[i] = named_by(word_at(file, first + i));
    }
    named
}

// Whether a party may read an output that names these. Eight parties have bits; where none is set, everyone may.
#[tactic(auto, using(crate::proofs::Allowed::ninth_may_not), unfolding(crate::specs::Named::may_read))]
pub fn may_read(named: u8, party: u32) -> bool
    ensures { result ≡ may_read named party }
{
    named == 0 || (party < 8 && (named >> party) % 2 == 1)
}
