// Entries of tables, which are most of the words of a large file: a run of them that nothing refuses is passed over at once.
ghost use Rattle.std.specs.Prelude.{◌≡◌, ◌-◌, ◌≤◌, min};
ghost use Rattle.words.specs.Entries.{GoodEntries};
ghost use Rattle.circuit.specs.File.{words_in};
ghost use Rattle.circuit.specs.Entry.{after_run};

use words::{Due, good_entries};

// How many good entries stand here, of those that are due and in the file.
pub fn entries_here(file: &[u8], at: usize, left: u8, modulus: u8) -> usize
    requires { at ≤ words_in file.now }
    ensures { GoodEntries file.now at (min left (words_in file.now - at)) modulus result }
{
    let ahead = file.len() / 4 - at;
    good_entries(file, at, usize::from(left).min(ahead), modulus)
}

pub fn after_run(left: u8, modulus: u8, run: usize) -> Due
    ensures { result ≡ after_run left modulus run }
{
    if usize::from(left) <= run {
        Due::Gates
    } else {
        Due::Entries(left - run as u8, modulus)
    }
}
