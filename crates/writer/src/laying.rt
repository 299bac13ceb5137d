// Words laid down into the lent file.
ghost use Rattle.std.specs.Prelude.{◌≡◌, cond, ◌+◌, ◌<◌, length};
ghost use Rattle.words.specs.Encode.{word_of};
ghost use Rattle.writer.specs.Desk.{put_word, put_words, entry_words};

use words::{Item, encode};

// A word at an index, where there is room for it. There always is in the pass that lays: that is seen before.
pub fn put_word(file: &mut [u8], at: usize, w: u32)
    requires { at < 1000000 }
    ensures { file.new ≡ put_word file.old at w }
{
    let from = 4 * at;
    let to = from + 4;
    if to <= file.len() {
        file[from..to].copy_from_slice(&w.to_le_bytes());
    }
}

// A word at an index, in the pass that lays.
pub fn lay_word(file: &mut [u8], at: usize, w: u32, lay: bool)
    requires { at < 1000000 }
    ensures { file.new ≡ cond lay (put_word file.old at w) file.old }
{
    if lay {
        put_word(file, at, w);
    }
}

fn entry_word(image: u8) -> u32
    ensures { result ≡ word_of (Item.Entry image) }
{
    encode(Item::Entry(u32::from(image)))
}

// The words of a table from an index on.
pub fn put_entries(file: &mut [u8], at: usize, images: &[u8])
    requires { at + length images.now < 1000000 }
    ensures { file.new ≡ put_words file.old at (entry_words images.now) }
{
    for (i, image) in images.iter().enumerate() {
        put_word(file, at + i, entry_word(*image));
    }
}

// The words of a table, in the pass that lays.
pub fn lay_entries(file: &mut [u8], at: usize, images: &[u8], lay: bool)
    requires { at + length images.now < 1000000 }
    ensures { file.new ≡ cond lay (put_words file.old at (entry_words images.now)) file.old }
{
    if lay {
        put_entries(file, at, images);
    }
}
