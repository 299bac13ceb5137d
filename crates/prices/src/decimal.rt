// Numbers and other text, put into a lent buffer.
ghost use Rattle.std.specs.Prelude.{◌≡◌, ◌+◌, ◌≤◌, ◌<◌, length};
ghost use Rattle.prices.specs.Decimal.{decimal};
ghost use Rattle.prices.specs.Placed.{Placed};

// A decimal digit as a character.
fn digit(n: u64) -> u8
    requires { n < 10 }
    ensures { result ≡ 48 + n }
{
    48 + n as u8
}

// Puts a number in decimal at a place, and answers with the place behind it.
pub fn put_decimal(out: &mut [u8], at: usize, n: u64) -> usize
    requires { at + length (decimal n) ≤ length out.old }
    ensures { Placed out.old at (decimal n) result out.new }
{
    if n < 10 {
        out[at] = digit(n);
        at + 1
    } else {
        let last = put_decimal(out, at, n / 10);
        out[last] = digit(n % 10);
        last + 1
    }
}
