// All lines of the text: the bytes of a circuit file, or what is wrong.
ghost use Rattle.std.specs.Prelude.{◌≤◌, length};
ghost use Rattle.prices.specs.Lines.{lines_of};
ghost use Rattle.prices.specs.Found.{Finds};

use super::line::line_at;

// Why the lines are no circuit file: the number of a bad line, or a line too many.
#[derive(Clone, Copy, Debug, PartialEq, Eq)]
pub enum Unread {
    BadLine(usize),
    TooLong,
}

// Reads the lines of the text, and puts their words' bytes into `file`: how many bytes there are.
pub fn read_lines(text: &[u8], file: &mut [u8]) -> Result<usize, Unread>
    requires { 65536 ≤ length file.old }
    ensures { Finds file.new result (lines_of text.now) }
{
    let mut at = 0;
    let mut n = 0;
    while at < text.len() {
        if 16384 <= n {
            return Err(Unread::TooLong);
        }
        match line_at(text, at) {
            Some(word) => lists::put_at(file, 4 * n, &word),
            None => return Err(Unread::BadLine(n + 1)),
        }
        n += 1;
        at += 9;
    }
    Ok(4 * n)
}
