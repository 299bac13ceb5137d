// 26: the first select among the whole words of a file, whatever the file is.
ghost use Rattle.std.specs.Prelude.{◌≡◌, ◌+◌, ◌*◌, ◌<◌, length, position};
ghost use Rattle.std.specs.List.{range_with_len};
ghost use Rattle.circuit.specs.File.{words_in};
ghost use Rattle.pair.specs.Bytes.{is_select_word, selects_checked};

use checks::{Answer, Refusal};
use words::word_at;

// Whether the word at an index is a select: its kind stands in the uppermost four bits.
fn select_at(file: &[u8], i: usize) -> bool
    requires { 4 * i + 3 < length file.now }
    ensures { result ≡ is_select_word file.now i }
{
    (word_at(file, i) >> 28) % 16 == 8
}

// The lowest index of a select, if there is one.
fn first_select(file: &[u8]) -> Option<usize>
    ensures { result ≡ position (is_select_word file.now) (range_with_len 0 (words_in file.now)) }
{
    (0..file.len() / 4).position(|i| select_at(file, i))
}

pub fn selects_checked(file: &[u8]) -> Answer
    ensures { result ≡ selects_checked file.now }
{
    match first_select(file) {
        Some(i) => Err(Refusal::SelectPresent.at(i)),
        None => Ok(()),
    }
}
