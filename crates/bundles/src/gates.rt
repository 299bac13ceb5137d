// The gates of a part, one a prime: what its words say, how many they are, and how they are laid down.
ghost use Rattle.std.specs.Prelude.{◌≡◌, ◌+◌, ◌*◌, ◌≤◌, ◌<◌, length};
ghost use Rattle.writer.specs.Desk.{put_words};
ghost use Rattle.writer.specs.Call.{file_with};
ghost use Rattle.bundles.specs.Part.{part_words};
ghost use Rattle.bundles.specs.Laying.{scaled_item, first_item, zeros_after, gate_words, Counts, taken_to};

use super::operation::Operation;
use super::primes::prime;
use super::splitting::residue_at;
use lists::zeros;
use words::{Item, encode};
use writer::{put_entries, put_word};

// A wire times a constant modulo p: where that is 0, a projection to 0, since no scale is by 0.
fn scaled_item(constant: u8, p: u8, a: u32) -> Item
    ensures { result ≡ scaled_item constant p a }
{
    if constant == 0 {
        return Item::Project(u32::from(p), a);
    }
    Item::Scale(u32::from(constant), a)
}

// How many entries of image 0 follow it.
fn zeros_after(operation: Operation, i: usize) -> usize
    requires { i < 10 }
    ensures { result ≡ zeros_after operation i }
{
    match operation {
        Operation::Scale(constant) if residue_at(constant, i) == 0 => usize::from(prime(i)),
        _ => 0,
    }
}

// How many words a part of r gates has: at most 1,000, far below the index up to which `put_word` can be called.
pub fn word_count(operation: Operation, r: usize) -> usize
    requires { r ≤ 10 }
    ensures { Counts operation r result × (result ≤ 1000) }
{
    let mut words = 0;
    for i in 0..r {
        words += 1 + zeros_after(operation, i);
    }
    words
}

// A part, as its gates take it: what it does with the bundle of r wires from wire a on.
#[derive(Clone, Copy)]
pub struct Part {
    pub operation: Operation,
    pub a: u32,
    pub r: usize,
    ghost few: { r ≤ 10 },
    // The bundles that it takes are wires that a word can name.
    ghost placed: { taken_to operation a r ≤ 1024 },
}

impl Part {
    // What the first word of the gate of prime i says.
    fn first_item(self, i: usize) -> Item
        requires { i < self.r }
        ensures { result ≡ first_item self.operation self.a i }
    {
        let place = i as u32;
        let a = self.a;
        match self.operation {
            Operation::Add(b) => Item::Add(a + place, b + place),
            Operation::Multiply(b) => Item::Multiply(a + place, b + place),
            Operation::Scale(constant) => scaled_item(residue_at(constant, i), prime(i), a + place),
        }
    }

    // The words of the gate of prime i, from an index of the file on; the index behind them.
    fn lay_gate(self, i: usize, file: &mut [u8], at: usize) -> usize
        requires { (i < self.r) × (at ≤ 1000) }
        ensures { (result ≡ at + length (gate_words self.operation self.a i)) × (file.new ≡ put_words file.old at (gate_words self.operation self.a i)) }
    {
        put_word(file, at, encode(self.first_item(i)));
        let count = zeros_after(self.operation, i);
        // the images of a projection to 0: 32 are enough for each prime of a bundle
        put_entries(file, at + 1, &zeros::<32>()[..count]);
        at + 1 + count
    }

    // The words of all gates, from the start of a buffer that has room for them.
    pub fn lay(self, file: &mut [u8])
        requires { 4 * length (part_words self.operation self.r self.a) ≤ length file.old }
        ensures { file.new ≡ file_with (part_words self.operation self.r self.a) file.old }
    {
        let mut at = 0;
        for i in 0..self.r {
            at = self.lay_gate(i, file, at);
        }
    }
}
