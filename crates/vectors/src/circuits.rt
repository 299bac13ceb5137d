// Document 01's examples of circuits that are just accepted, and just refused.
ghost use Rattle.std.specs.Prelude.{◌≡◌, ◌+◌, ◌*◌, ◌≤◌, length};

use super::data::{
    CONSTANT_0, CONSTANT_250, CONSTANT_251, MODULUS_1, MODULUS_2, MODULUS_251, MODULUS_253,
};
use super::report;
use std::io;

// Reads a file and compares the answer's number and place: 0 and 0 where it must be accepted.
fn example(rt: &impl Print, name: &str, file: &[u8], number: u32, place: usize) -> io::Result<()> {
    let (told, at) = match circuit::read(file) {
        Ok(_) => (0, 0),
        Err(why) => (u32::from(why.reason), why.place),
    };
    report(rt, name, told == number && at == place, at)
}

// Writes a word whose lowest two bytes and highest byte are given.
fn put_word(out: &mut [u8], at: usize, low: u8, next: u8, high: u8)
    requires { at + 4 ≤ length out.old }
{
    out[at] = low;
    out[at + 1] = next;
    out[at + 2] = 0;
    out[at + 3] = high;
}

// A head, so many inputs of modulus 2, an output and an end.
fn put_inputs(out: &mut [u8], count: usize)
    requires { (count ≤ 1025) × (4 * count + 12 ≤ length out.old) }
{
    put_word(out, 0, 0, 0, 0x10);
    for i in 0..count {
        put_word(out, 4 * i + 4, 2, 0, 0x20);
    }
    put_word(out, 4 * count + 4, 0, 0, 0xa0);
    put_word(out, 4 * count + 8, 0, 0, 0xb0);
}

fn most_wires(rt: &impl Print) -> io::Result<()> {
    let mut file = [0; 4108];
    put_inputs(&mut file, 1024);
    example(rt, "1,024 wires", &file, 0, 0)
}

fn one_wire_more(rt: &impl Print) -> io::Result<()> {
    let mut file = [0; 4112];
    put_inputs(&mut file, 1025);
    example(rt, "1,025 wires", &file, 8, 1025)
}

pub fn examples(rt: &impl Print) -> io::Result<()> {
    example(rt, "constant 250 at modulus 251", &CONSTANT_250, 0, 0)?;
    example(rt, "constant 0", &CONSTANT_0, 7, 2)?;
    example(rt, "constant 251 at modulus 251", &CONSTANT_251, 7, 2)?;
    example(rt, "modulus 251", &MODULUS_251, 0, 0)?;
    example(rt, "modulus 2", &MODULUS_2, 0, 0)?;
    example(rt, "modulus 1", &MODULUS_1, 4, 1)?;
    example(rt, "modulus 253", &MODULUS_253, 4, 1)?;
    most_wires(rt)?;
    one_wire_more(rt)
}
