// The price list of the circuit on standard input, written to standard output. Of the text no more matters than 16,384 lines of 9 bytes and one byte behind them,
// by which it is too long. All the work is `prices::price_list`. A read or a write that fails ends the program with its error.

#![tactic(auto)]

ghost use Rattle.std.specs.Prelude.{◌≡◌, ◌≤◌, length, take, IfOk, IfSome, OnOk};
ghost use Rattle.std.specs.Io.KnownBytes.{Appends};
ghost use Rattle.prices.specs.Prices.{price_list};

use std::io;
use std::io::{Read, Write};

// Reads until `text` is full or the input ends, and answers with how many bytes it read.
fn read_front<R: Read>(input: &mut R, text: &mut [u8]) -> io::Result<usize>
    ensures within { IfOk result (λ n. n ≤ length text.new) }
    ensures front { IfOk result (λ n. IfSome (R.remaining input.old) (λ all. take n text.new ≡ take (length text.old) all)) }
{
    let mut done = 0;
    while done < text.len() {
        let n = input.read(&mut text[done..])?;
        if n == 0 {
            return Ok(done);
        }
        done += n;
    }
    Ok(done)
}

// Writes the price list of the text that the input has left.
fn put_sheet<R: Read, W: Write>(input: &mut R, output: &mut W) -> io::Result<()>
    ensures { OnOk result (IfSome (R.remaining input.old) (λ text. Appends (W.contents output.old) (W.contents output.new) (price_list text))) }
{
    let mut text = [0u8; 147457];
    let n = read_front(input, &mut text)?;
    let mut out = [0u8; 16384];
    let length = prices::price_list(&text[..n], &mut out);
    output.write_all(&out[..length])
}

fn main(rt: HostRuntime) -> io::Result<()> {
    put_sheet(&mut rt.stdin(), &mut rt.stdout())
}
