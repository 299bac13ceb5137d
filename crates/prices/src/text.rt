// Text put into a lent buffer: each function answers with the place behind what it put.
ghost use Rattle.std.specs.Prelude.{◌+◌, ◌≤◌, length};
ghost use Rattle.prices.specs.Prices.{number_and};
ghost use Rattle.prices.specs.Placed.{Placed};

use super::decimal::put_decimal;

pub fn put_text(out: &mut [u8], at: usize, text: &[u8]) -> usize
    requires { at + length text.now ≤ length out.old }
    ensures { Placed out.old at text.now result out.new }
{
    lists::put_at(out, at, text);
    at + text.len()
}

// A number in decimal, and the character behind it.
pub fn put_number(out: &mut [u8], at: usize, n: u64, behind: u8) -> usize
    requires { at + length (number_and behind n) ≤ length out.old }
    ensures { Placed out.old at (number_and behind n) result out.new }
{
    let end = put_decimal(out, at, n);
    out[end] = behind;
    end + 1
}
