// A word's bits: its kind, its fields, and the bits that must be zero; and the words of a file.
ghost use Rattle.std.specs.Prelude.{◌≡◌, ◌+◌, ◌*◌, ◌≤◌, ◌<◌, length};
ghost use Rattle.words.specs.Bits.{bits, clear, kind, named, word_at};

// Bits `high` to `low` of a word, fewer than all 32.
pub fn bits(w: u32, high: u32, low: u32) -> u32
    requires { (low ≤ high) × (high < 32) × (high < low + 31) }
    ensures { result ≡ bits w high low }
{
    (w >> low) % (1 << (high + 1 - low))
}

pub fn clear(w: u32, high: u32, low: u32) -> bool
    requires { (low ≤ high) × (high < 32) × (high < low + 31) }
    ensures { result ≡ clear w high low }
{
    bits(w, high, low) == 0
}

pub fn kind(w: u32) -> u32
    ensures { result ≡ kind w }
{
    bits(w, 31, 28)
}

// The parties that an output's word names.
pub fn named_by(w: u32) -> u8
    ensures { result ≡ named w }
{
    bits(w, 17, 10) as u8
}

// The word at an index of a file.
pub fn word_at(file: &[u8], i: usize) -> u32
    requires { 4 * i + 3 < length file.now }
    ensures { result ≡ word_at file.now i }
{
    let at = 4 * i;
    u32::from_le_bytes([file[at], file[at + 1], file[at + 2], file[at + 3]])
}
