// A whole file: the head, then word after word until the end word, a refusal or the end of the file.
ghost use Rattle.std.specs.Prelude.{◌≡◌, cond, Err, IfOk, IfErr};
ghost use Rattle.circuit.specs.Wires.{is_input};
ghost use Rattle.circuit.specs.File.{has_head, read_file};
ghost use Rattle.circuit.specs.Held.{Holds};

use super::Circuit;
use super::blank::empty;
use super::naming::named_before;
use super::table::{after_run, entries_here};
use checks::{Refusal, Refused};
use lists::scratch;
use words::{Due, Gate, Step, read_word, word_at};

// How many inputs a gate is: 1 or 0.
fn inputs_of(gate: Gate) -> usize
    ensures { result ≡ cond (is_input gate) 1 0 }
{
    usize::from(matches!(gate, Gate::Input(_)))
}

// The first word is there and is the head.
fn has_head(file: &[u8]) -> bool
    ensures { result ≡ has_head file.now }
{
    4 <= file.len() && word_at(file, 0) == 0x1000_0000
}

// What a file comes to. Wires, their moduli and outputs fill their arrays from the front. It goes into each call that reads, where the compiler makes no result
// with room for a circuit, which would be cleared first and copied.
#[inline(always)]
pub fn read(file: &[u8]) -> Result<Circuit, Refused>
    ensures ok { IfOk result (λ circuit. Holds circuit (read_file file.now)) }
    ensures err { IfErr result (λ why. (read_file file.now).answer ≡ Err why) }
{
    if !has_head(file) {
        return Err(Refusal::NoHead.at(0));
    }
    let words = file.len() / 4;
    let mut circuit = empty();
    // The wires' moduli, one beside each: a word is judged by these alone, also where the writer judges it, which has no wires.
    let mut moduli = scratch::<1024>();
    let mut made: usize = 0;
    let mut inputs: usize = 0;
    let mut given: usize = 0;
    let mut due = Due::Inputs;
    let mut at: usize = 1;
    // No `for`: a run of entries takes the index past as many words as are good.
    while at < words {
        // A copy, since what is known of `due` itself would be lost where the arms join.
        let expected = due;
        if let Due::Entries(left, modulus) = expected {
            let run = entries_here(file, at, left, modulus);
            if 0 < run {
                due = after_run(left, modulus, run);
                at += run;
                continue;
            }
        }
        let next = at + 1;
        let w = word_at(file, at);
        // Fewer than 2^19 words are read before a refusal or the end: at most 257 for each wire, and the outputs.
        match read_word(&moduli[..made], given, at as u32, due, w) {
            Step::Refused(reason) => return Err(reason.at(at)),
            Step::Makes(wire, then) => {
                circuit.wires[made] = wire;
                moduli[made] = wire.modulus;
                inputs += inputs_of(wire.gate);
                made += 1;
                due = then;
                at = next;
            }
            Step::Goes(then) => {
                due = then;
                at = next;
            }
            Step::Gives(wire) => {
                circuit.outputs[given] = wire;
                given += 1;
                due = Due::Outputs;
                at = next;
            }
            Step::Ends => {
                if file.len() <= 4 * next {
                    circuit.named = named_before(file, at, given);
                    circuit.made = made;
                    circuit.inputs = inputs;
                    circuit.given = given;
                    return Ok(circuit);
                }
                return Err(Refusal::WrongEnd.at(next));
            }
        }
    }
    Err(Refusal::WrongEnd.at(at))
}
