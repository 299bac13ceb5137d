// What a host does between the calls: a party's own of all inputs' bytes, the parties' external values in wire order, all keys by input, then party.
ghost use Rattle.std.specs.Prelude.{◌≡◌, ◌*◌, cond, eqb, length, get_or, replicate};
ghost use Rattle.circuit.specs.Held.{wires_in, Room, Held};
ghost use Rattle.counts.specs.Counts.{Counts, mark, owned_by};
ghost use Rattle.rehearsal.specs.Hosts.{Picked, scattered, keys_by_input};

use circuit::Circuit;
use lists::piece;
use words::Gate;

// All parties' input keys, which lie party by party, `inputs` keys of `k` bytes each, put by input, then party.
pub fn put_keys_by_input(n: u32, k: usize, inputs: usize, each: usize, mine: &[u8], keys: &mut [u8])
    requires { (each ≡ inputs * k) × ((length mine.now ≡ n * each) × (length keys.old ≡ inputs * (n * k))) }
    ensures { keys.new ≡ keys_by_input n k inputs each mine.now }
{
    let mut at = 0;
    let mut first = 0;
    let mut w = 0;
    while w < inputs {
        let mut from = first;
        let mut party = 0;
        while party < n {
            let past = from + each;
            let to = at + k;
            let key = piece(mine, from, k);
            keys[at..to].copy_from_slice(key);
            at = to;
            from = past;
            party += 1;
        }
        first += k;
        w += 1;
    }
}

pub fn blank() -> [u8; 1024]
    ensures { result ≡ replicate 1024 0 }
{
    [0u8; 1024]
}

// 1 where a gate is an input that the party owns, else 0.
fn owned(gate: Gate, party: u32) -> usize
    ensures { Counts 1 (mark (owned_by party gate)) result }
{
    counts::owned(gate, party) as usize
}

// What stands at a place, and 0 past the end.
fn entry(all: &[u8], at: usize) -> u8
    ensures { result ≡ get_or all.now at 0 }
{
    if at < all.len() { all[at] } else { 0 }
}

// A party's own of all inputs' bytes, at the front. A wire that it does not own is overwritten by the next.
pub fn picked(circuit: Circuit, party: u32, all: &[u8]) -> [u8; 1024]
    requires { Room circuit }
    ensures { Picked party (wires_in circuit) all.now result }
{
    let made = circuit.made;
    let mut out = blank();
    let mut count: usize = 0;
    let mut w = 0;
    while w < made {
        let wire = circuit.wires[w];
        let gate = wire.gate;
        out[count] = entry(all, w);
        count += owned(gate, party);
        w += 1;
    }
    out
}

fn chosen(mark: usize, new: u8, old: u8) -> u8
    ensures { result ≡ cond (eqb mark 1) new old }
{
    if mark == 1 { new } else { old }
}

// A party's external values, at the front of `mine`, put to the wires of its inputs.
pub fn scatter(circuit: Circuit, party: u32, mine: &[u8], externals: &mut [u8])
    requires { Held circuit × ((length mine.now ≡ 1024) × (length externals.old ≡ circuit.inputs)) }
    ensures { externals.new ≡ scattered party (wires_in circuit) mine.now externals.old }
{
    let inputs = circuit.inputs;
    let mut count: usize = 0;
    let mut w = 0;
    while w < inputs {
        let wire = circuit.wires[w];
        let gate = wire.gate;
        let mark = owned(gate, party);
        externals[w] = chosen(mark, mine[count], externals[w]);
        count += mark;
        w += 1;
    }
}
