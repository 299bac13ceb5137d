// The sizes of all parties' memory, as they follow from the circuit.
ghost use Rattle.std.specs.Prelude.{◌≡◌, ◌≤◌};
ghost use Rattle.checks.specs.Answer.{accepts};
ghost use Rattle.circuit.specs.File.{read_file};
ghost use Rattle.rehearsal.specs.Rehearsed.{Sized};

use circuit::read;
use contribution::contribution_size;

// How many inputs, wires and outputs; and how many bytes a party's contribution, its input keys, and its keys of all wires have.
#[derive(Clone, Copy)]
pub struct Sizes {
    pub own: usize,
    pub made: usize,
    pub given: usize,
    pub size: usize,
    pub each: usize,
    pub wide: usize,
}

// Of a file that the reader accepts.
pub fn sizes_of(file: &[u8], n: u32, k: u32) -> Sizes
    requires accepted { (read_file file.now).answer ≡ accepts }
    requires ranged { (n ≤ 8) × (k ≤ 128) }
    ensures { Sized file.now n k result.own result.made result.given result.size result.each result.wide }
{
    let circuit = read(file).unwrap();
    let long = k as usize;
    let width = n as usize * long;
    Sizes {
        own: circuit.inputs,
        made: circuit.made,
        given: circuit.given,
        size: contribution_size(circuit, long),
        each: circuit.inputs * long,
        wide: circuit.made * width,
    }
}
