// One line of the text: the bytes of its word, or that it has another form.
ghost use Rattle.std.specs.Prelude.{◌≡◌, true, ◌<◌, drop};
ghost use Rattle.prices.specs.Lines.{hex_value, hex_digits, line_ends, byte_at};
ghost use Rattle.prices.specs.Line.{line_at};

// The value of a hexadecimal digit, and 16 for another character. 55 and 87 are 10 less than the characters A and a.
fn hex_value(c: u8) -> u8
    ensures { result ≡ hex_value c }
{
    match c {
        48..=57 => c - 48,
        65..=70 => c - 55,
        97..=102 => c - 87,
        _ => 16,
    }
}

// Whether 8 hexadecimal digits stand at a place.
fn digits_at(text: &[u8], at: usize) -> bool
    ensures { result ≡ hex_digits 8 (drop at text.now) }
{
    let mut i = at;
    let mut left: usize = 8;
    while 0 < left {
        if text.len() <= i {
            return false;
        }
        if 16 <= hex_value(text[i]) {
            return false;
        }
        i += 1;
        left -= 1;
    }
    true
}

// Whether a line ends at a place.
fn ends_at(text: &[u8], at: usize) -> bool
    ensures { result ≡ line_ends (drop at text.now) }
{
    if at < text.len() {
        text[at] == 10
    } else {
        true
    }
}

// Of 8 digits at a place, the byte that the i-th and the next one stand for.
fn byte_at(text: &[u8], at: usize, i: usize) -> u8
    requires { (hex_digits 8 (drop at text.now) ≡ true) × (i < 7) }
    ensures { result ≡ byte_at (drop at text.now) i }
{
    let first = at + i;
    let second = first + 1;
    let high = hex_value(text[first]);
    let low = hex_value(text[second]);
    16 * high + low
}

// The line at a place: the four bytes of its word, the least significant first, or nothing where it has another form.
pub fn line_at(text: &[u8], at: usize) -> Option<[u8; 4]>
    ensures { result ≡ line_at (drop at text.now) }
{
    if digits_at(text, at) {
        if ends_at(text, at + 8) {
            let a = byte_at(text, at, 6);
            let b = byte_at(text, at, 4);
            let c = byte_at(text, at, 2);
            let d = byte_at(text, at, 0);
            return Some([a, b, c, d]);
        }
    }
    None
}
