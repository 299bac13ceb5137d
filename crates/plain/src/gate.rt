// The value of one wire, from those of lower wires. Masks add up and are multiplied as values are, so `sum` and `scaled` serve the
// crate that computes them too.
ghost use Rattle.std.specs.Prelude.{◌≡◌, ◌+◌, ◌<◌, eqb, get_or};
ghost use Rattle.residue.specs.Residue.{add, mul};
ghost use Rattle.words.specs.Bits.{image, word_at};
ghost use Rattle.plain.specs.Plain.{chosen_by, plain_by};
ghost use Rattle.plain.specs.Ready.{Below, PairReady, ProjectionReady, ChoiceReady, Ready};

use words::{Choice, Gate, Pair, Projection, Scaling, Wire};

pub fn sum(p: u8, gate: Pair, done: &[u8]) -> u8
    requires { PairReady done.now p gate }
    ensures { result ≡ add p (get_or done.now gate.a 0) (get_or done.now gate.b 0) }
{
    residue::add(p, done[usize::from(gate.a)], done[usize::from(gate.b)])
}

fn product(p: u8, gate: Pair, done: &[u8]) -> u8
    requires { PairReady done.now p gate }
    ensures { result ≡ mul p (get_or done.now gate.a 0) (get_or done.now gate.b 0) }
{
    residue::mul(p, done[usize::from(gate.a)], done[usize::from(gate.b)])
}

pub fn scaled(p: u8, gate: Scaling, done: &[u8]) -> u8
    requires { Below done.now p gate.a }
    ensures { result ≡ mul p gate.constant (get_or done.now gate.a 0) }
{
    residue::mul(p, gate.constant, done[usize::from(gate.a)])
}

// An entry's image stands in bits 7 to 0 of its word, so in the first of its bytes.
fn projected(gate: Projection, file: &[u8], done: &[u8]) -> u8
    requires { ProjectionReady file.now done.now gate }
    ensures { result ≡ image (word_at file.now (gate.table + get_or done.now gate.a 0)) }
{
    let entry = gate.table as usize + usize::from(done[usize::from(gate.a)]);
    file[4 * entry]
}

fn selected(gate: Choice, done: &[u8]) -> u8
    requires { ChoiceReady done.now gate }
    ensures { result ≡ chosen_by (eqb (get_or done.now gate.bit 0) 0) (get_or done.now gate.a 0) (get_or done.now gate.b 0) }
{
    if done[usize::from(gate.bit)] == 0 {
        done[usize::from(gate.a)]
    } else {
        done[usize::from(gate.b)]
    }
}

// The value of wire `w`, whose gate is `wire`'s.
#[tactic(auto, unfolding(crate::specs::Plain::plain_by))]
pub fn wire_value(wire: Wire, w: usize, file: &[u8], values: &[u8], done: &[u8]) -> u8
    requires { Ready file.now values.now done.now w wire.modulus wire.gate }
    ensures { result ≡ plain_by file.now values.now w wire.modulus wire.gate (λ a. get_or done.now a 0) }
{
    let p = wire.modulus;
    match wire.gate {
        Gate::Input(_) => values[w],
        Gate::Add(pair) => sum(p, pair, done),
        Gate::Scale(scaling) => scaled(p, scaling, done),
        Gate::Multiply(pair) => product(p, pair, done),
        Gate::Project(projection) => projected(projection, file, done),
        Gate::Select(choice) => selected(choice, done),
    }
}
