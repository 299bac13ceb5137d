// From the text to what is printed for it.
ghost use Rattle.std.specs.Prelude.{◌≡◌, ◌≤◌, length};
ghost use Rattle.prices.specs.Lines.Lines.{bad_line, too_long};
ghost use Rattle.prices.specs.Prices.{printed, price_list};
ghost use Rattle.prices.specs.Placed.{Placed};

use super::lines::{Unread, read_lines};
use super::listing::put_circuit;
use super::text::{put_number, put_text};
use lists::scratch;

fn put_bad_line(out: &mut [u8], n: usize) -> usize
    requires { 16384 ≤ length out.old }
    ensures { Placed out.old 0 (printed (bad_line n)) result out.new }
{
    let a = put_text(out, 0, b"bad line ");
    put_number(out, a, n as u64, b'\n')
}

fn put_too_long(out: &mut [u8]) -> usize
    requires { 16384 ≤ length out.old }
    ensures { Placed out.old 0 (printed too_long) result out.new }
{
    put_text(out, 0, b"too long\n")
}

// Prints the price list of a text at the front of `out`, and answers with its length. None has more than 15,396 bytes,
// which is a bound: a head, 1,024 lines of at most 15 and a total of at most 13. It fits the 16,384 that are asked.
pub fn price_list(text: &[u8], out: &mut [u8]) -> usize
    requires { 16384 ≤ length out.old }
    ensures { Placed out.old 0 (price_list text.now) result out.new }
{
    let mut file = scratch::<65536>();
    match read_lines(text, &mut file) {
        Ok(n) => put_circuit(out, &file[..n]),
        Err(Unread::BadLine(n)) => put_bad_line(out, n),
        Err(Unread::TooLong) => put_too_long(out),
    }
}
