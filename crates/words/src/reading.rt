// What one word does where it stands: check 2 is on its bits, the others are on what it says. Each kind goes straight to its item's checks: by way of an
// `Item` and `judge`, reading a usual file took nearly twice as long.
ghost use Rattle.std.specs.Prelude.{◌≡◌, ◌+◌, ◌≤◌, ◌<◌, ◌^◌, length};
ghost use Rattle.words.specs.Reading.{read_word};

use super::bits::{bits, clear, kind};
use super::gate::{Due, Step};
use super::items::{
    branches_item, end_item, entry_item, input_item, output_item, pair_item, project_item,
    scale_item, select_item,
};
use checks::Refusal;

// What a word does at an index of the file, where the wires made so far have these moduli, `given` outputs are given, and `due` is due. Kinds are the numbers
// that a word has for them, as in the definition: to make an enum of them first would list the eleven once more. It goes into the reader's loop wherever that
// stands, so that what a word does never goes through memory.
#[inline(always)]
#[tactic(auto, unfolding(crate::specs::Reading::read_word, crate::specs::Reading::said))]
pub fn read_word(moduli: &[u8], given: usize, at: u32, due: Due, w: u32) -> Step
    requires { (length moduli.now ≤ 1024) × (at + 1 < 2 ^ 32) }
    ensures { result ≡ read_word moduli.now given at due w }
{
    let low = bits(w, 9, 0);
    let high = bits(w, 19, 10);
    let byte = bits(w, 7, 0);
    let middle = bits(w, 17, 10);
    match kind(w) {
        1 if clear(w, 27, 0) => Step::Refused(Refusal::NotDue),
        2 if clear(w, 27, 24) & clear(w, 15, 8) => {
            input_item(moduli.len(), due, bits(w, 23, 16), byte)
        }
        3 if clear(w, 27, 20) => pair_item(moduli, due, false, high, low),
        4 if clear(w, 27, 18) => scale_item(moduli, due, middle, low),
        5 if clear(w, 27, 20) => pair_item(moduli, due, true, high, low),
        6 if clear(w, 27, 18) => project_item(moduli, at, due, middle, low),
        7 if clear(w, 27, 8) => entry_item(due, byte),
        8 if clear(w, 27, 10) => select_item(moduli, due, low),
        9 if clear(w, 27, 20) => branches_item(moduli, due, high, low),
        10 if clear(w, 27, 18) => output_item(moduli, given, due, low),
        11 if clear(w, 27, 0) => end_item(given, due),
        _ => Step::Refused(Refusal::UnknownWord),
    }
}
