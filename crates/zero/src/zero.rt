// The zero keys of all wires.
ghost use Rattle.std.specs.Prelude.{◌≡◌, ◌+◌, ◌*◌, ◌≤◌, ◌<◌, length};
ghost use Rattle.lists.specs.Blocks.{nth_piece};
ghost use Rattle.residue.specs.Vector.{add_v, mul_v};
ghost use Rattle.counts.specs.Recipe.{recipe};
ghost use Rattle.zero.specs.Ready.{Contributed, ZeroKeys};
ghost use Rattle.zero.specs.Turn.{key_here, Stands, KeysAsked, Put};

use super::shares::Drawn;
use circuit::Circuit;
use contribution::{first_record, record_size};
use counts::{Recipe, recipe_of};
use lists::{nth_piece, put_at, scratch};
use words::{Choice, Pair, Scaling, Wire};

fn sum(p: u8, gate: Pair, keys: &[u8], out: &mut [u8])
    requires { (0 < p) × (Stands (length out.old) keys.now gate.a × Stands (length out.old) keys.now gate.b) }
    ensures { out.new ≡ add_v p (nth_piece keys.now (length out.old) gate.a) (nth_piece keys.now (length out.old) gate.b) }
{
    let m = out.len();
    let a = nth_piece(keys, m, usize::from(gate.a));
    let b = nth_piece(keys, m, usize::from(gate.b));
    residue::key_of(p, a, 1, b, out);
}

fn multiple(p: u8, gate: Scaling, keys: &[u8], out: &mut [u8])
    requires { (0 < p) × Stands (length out.old) keys.now gate.a }
    ensures { out.new ≡ mul_v p gate.constant (nth_piece keys.now (length out.old) gate.a) }
{
    let m = out.len();
    let a = nth_piece(keys, m, usize::from(gate.a));
    out.copy_from_slice(a);
    residue::scale(p, gate.constant, out);
}

// Adds the keys of wire a, which a choice gives at 0.
fn add_first(p: u8, gate: Choice, keys: &[u8], out: &mut [u8])
    requires { (0 < p) × Stands (length out.old) keys.now gate.a }
    ensures { out.new ≡ add_v p out.old (nth_piece keys.now (length out.old) gate.a) }
{
    let m = out.len();
    let a = nth_piece(keys, m, usize::from(gate.a));
    residue::add_multiple(p, 1, a, out);
}

// The zero keys of one wire, whose record stands at place `at`, from the keys of lower wires.
fn put_zero_key(wire: Wire, at: usize, drawn: Drawn, keys: &[u8], out: &mut [u8])
    requires keys_asked { KeysAsked drawn.n drawn.k drawn.size at wire.modulus (recipe wire) drawn.contributions.now keys.now }
    requires out_len { length out.old ≡ drawn.n * drawn.k }
    ensures { out.new ≡ key_here drawn.entry.n drawn.entry.k drawn.entry.size at drawn.entry.contributions.now keys.now wire }
{
    let p = wire.modulus;
    match recipe_of(wire) {
        Recipe::Entered | Recipe::Table(_) | Recipe::Product(_) => drawn.gather(at, out),
        Recipe::Sum(pair) => sum(p, pair, keys, out),
        Recipe::Multiple(scaling) => multiple(p, scaling, keys, out),
        Recipe::Choice(choice) => {
            drawn.gather(at, &mut *out);
            add_first(p, choice, keys, out);
        }
    }
}

// The same, put into its place among the keys of all wires. They are made apart, since lower wires' keys are read from where they are put.
fn put_wire(wire: Wire, at: usize, to: usize, drawn: Drawn, keys: &mut [u8])
    requires keys_asked { KeysAsked drawn.n drawn.k drawn.size at wire.modulus (recipe wire) drawn.contributions.now keys.old }
    requires k_bound { (drawn.n * drawn.k ≤ 1024) × (to + drawn.n * drawn.k ≤ length keys.old) }
    ensures { Put drawn.entry.n drawn.entry.k to (key_here drawn.entry.n drawn.entry.k drawn.entry.size at drawn.entry.contributions.now keys.old wire) keys.old keys.new }
{
    let m = drawn.n * drawn.k;
    let mut key = scratch::<1024>();
    put_zero_key(wire, at, drawn, &*keys, &mut key[..m]);
    put_at(keys, to, &key[..m]);
}

// Each wire's zero keys of all parties, in the order of the wires.
pub fn zero_keys(circuit: Circuit, file: &[u8], drawn: Drawn, keys: &mut [u8])
    requires contributed { Contributed file.now circuit drawn.n drawn.k drawn.size drawn.contributions.now }
    requires keys_len { length keys.old ≡ circuit.made * (drawn.n * drawn.k) }
    ensures { ZeroKeys circuit drawn.entry.n drawn.entry.k drawn.entry.contributions.now keys.new }
{
    let m = drawn.n * drawn.k;
    let mut at = first_record(circuit, drawn.k);
    let mut to = 0;
    for wire in &circuit.wires[..circuit.made] {
        put_wire(*wire, at, to, drawn, &mut *keys);
        at += record_size(*wire, drawn.k);
        to += m;
    }
}
