// Runs of entries: most words of a large file are entries, and a run of them is passed over in one loop.
ghost use Rattle.std.specs.Prelude.{◌≡◌, true, ◌+◌, ◌*◌, ◌≤◌, length};
ghost use Rattle.words.specs.Entries.{good_entry, GoodTo, GoodEntries};

use super::bits::word_at;

// An entry with image 0 is 0x7000_0000, and the images follow it: one range holds all that the definition asks.
fn good_entry(modulus: u8, w: u32) -> bool
    ensures { result ≡ good_entry modulus w }
{
    let first = 0x7000_0000;
    (first <= w) & (w < first + u32::from(modulus))
}

// Whether the `count` words from an index on are all such entries. No word ends the loop, so that the compiler may test several at once.
fn all_good(file: &[u8], from: usize, count: usize, modulus: u8) -> bool
    requires { 4 * (from + count) ≤ length file.now }
    ensures { result ≡ true → GoodTo file.now from count modulus }
{
    let mut good = true;
    for i in 0..count {
        good &= good_entry(modulus, word_at(file, from + i));
    }
    good
}

// How many of the `count` words from an index on are, one after another, entries with an image below a modulus.
pub fn good_entries(file: &[u8], from: usize, count: usize, modulus: u8) -> usize
    requires { 4 * (from + count) ≤ length file.now }
    ensures { GoodEntries file.now from count modulus result }
{
    if all_good(file, from, count, modulus) {
        return count;
    }
    for i in 0..count {
        if !good_entry(modulus, word_at(file, from + i)) {
            return i;
        }
    }
    count
}
