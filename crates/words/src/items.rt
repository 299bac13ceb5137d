// What an item does where it stands. Its checks are made in the order of their numbers, as in the definition; they go by the fields' values, so a
// field that is too wide for a word fails the check on it. The wires made so far have these moduli, one for each. What is known of the place comes as single
// numbers and not as one struct: each item is given what its checks go by, and nothing else.

#![tactic(auto, unfolding(crate::specs::Items::check))]

ghost use Rattle.std.specs.Prelude.{◌≡◌, cond, ◌&&◌, ◌+◌, ◌≤◌, ◌<◌, ◌^◌, ltb, length};
ghost use Rattle.words.specs.Items.{wire_of, pair_of, is_modulus, input_item, pair_item, scale_item, project_item, entry_item};
ghost use Rattle.words.specs.Items.{select_item, branches_item, output_item, end_item, judged};

use super::due::{after_entry, gate_due, input_due, output_due};
use super::gate::{Choice, Due, Gate, Owned, Pair, Projection, Scaling, Step, Wire};
use super::item::Item;
use checks::Refusal;

fn makes(gate: Gate, modulus: u8, due: Due) -> Step
    ensures { result ≡ Step.Makes (wire_of gate modulus) due }
{
    Step::Makes(Wire { gate, modulus }, due)
}

fn is_made(moduli: &[u8], wire: u32) -> bool
    ensures { result ≡ ltb wire (length moduli.now) }
{
    (wire as usize) < moduli.len()
}

fn both_made(moduli: &[u8], a: u32, b: u32) -> bool
    ensures { result ≡ (ltb a (length moduli.now) && ltb b (length moduli.now)) }
{
    is_made(moduli, a) & is_made(moduli, b)
}

// Whether a number of any size is one of the 54 moduli.
fn is_modulus(p: u32) -> bool
    ensures { result ≡ is_modulus p }
{
    p < 256 && residue::is_modulus(p as u8)
}

pub fn input_item(made: usize, due: Due, owner: u32, modulus: u32) -> Step
    ensures { result ≡ input_item made due owner modulus }
{
    if !input_due(due) {
        return Step::Refused(Refusal::NotDue);
    }
    if !is_modulus(modulus) {
        return Step::Refused(Refusal::NotPrime);
    }
    if 8 <= owner {
        return Step::Refused(Refusal::OutOfRange);
    }
    if 1024 <= made {
        return Step::Refused(Refusal::TooMany);
    }
    let party = owner as u8;
    let prime = modulus as u8;
    makes(Gate::Input(Owned { owner: party }), prime, Due::Inputs)
}

// A sum or a product of two wires. A test and not a function that is passed in: that would need clauses about its calls.
fn pair_gate(product: bool, a: u16, b: u16) -> Gate
    ensures { result ≡ cond product (Gate.Multiply (pair_of a b)) (Gate.Add (pair_of a b)) }
{
    if product {
        Gate::Multiply(Pair { a, b })
    } else {
        Gate::Add(Pair { a, b })
    }
}

pub fn pair_item(moduli: &[u8], due: Due, product: bool, a: u32, b: u32) -> Step
    ensures { result ≡ pair_item moduli.now due (cond product (Gate.Multiply (pair_of a b)) (Gate.Add (pair_of a b))) a b }
{
    if !gate_due(due) {
        return Step::Refused(Refusal::NotDue);
    }
    if !both_made(moduli, a, b) {
        return Step::Refused(Refusal::NotMade);
    }
    let modulus = moduli[a as usize];
    if modulus != moduli[b as usize] {
        return Step::Refused(Refusal::ModuliDiffer);
    }
    if 1024 <= moduli.len() {
        return Step::Refused(Refusal::TooMany);
    }
    let left = a as u16;
    let right = b as u16;
    makes(pair_gate(product, left, right), modulus, Due::Gates)
}

pub fn scale_item(moduli: &[u8], due: Due, constant: u32, a: u32) -> Step
    ensures { result ≡ scale_item moduli.now due constant a }
{
    if !gate_due(due) {
        return Step::Refused(Refusal::NotDue);
    }
    if !is_made(moduli, a) {
        return Step::Refused(Refusal::NotMade);
    }
    let modulus = moduli[a as usize];
    if constant == 0 || u32::from(modulus) <= constant {
        return Step::Refused(Refusal::OutOfRange);
    }
    if 1024 <= moduli.len() {
        return Step::Refused(Refusal::TooMany);
    }
    let factor = constant as u8;
    let wire = a as u16;
    makes(
        Gate::Scale(Scaling {
            constant: factor,
            a: wire,
        }),
        modulus,
        Due::Gates,
    )
}

pub fn project_item(moduli: &[u8], at: u32, due: Due, modulus: u32, a: u32) -> Step
    requires { at + 1 < 2 ^ 32 }
    ensures { result ≡ project_item moduli.now at due modulus a }
{
    if !gate_due(due) {
        return Step::Refused(Refusal::NotDue);
    }
    if !is_modulus(modulus) {
        return Step::Refused(Refusal::NotPrime);
    }
    if !is_made(moduli, a) {
        return Step::Refused(Refusal::NotMade);
    }
    if 1024 <= moduli.len() {
        return Step::Refused(Refusal::TooMany);
    }
    let table = at + 1;
    let wire = a as u16;
    let prime = modulus as u8;
    let values = moduli[a as usize];
    let entries = Due::Entries(values, prime);
    makes(Gate::Project(Projection { a: wire, table }), prime, entries)
}

pub fn entry_item(due: Due, image: u32) -> Step
    ensures { result ≡ entry_item due image }
{
    let Due::Entries(left, modulus) = due else {
        return Step::Refused(Refusal::NotDue);
    };
    if u32::from(modulus) <= image {
        return Step::Refused(Refusal::OutOfRange);
    }
    Step::Goes(after_entry(left, modulus))
}

pub fn select_item(moduli: &[u8], due: Due, bit: u32) -> Step
    ensures { result ≡ select_item moduli.now due bit }
{
    if !gate_due(due) {
        return Step::Refused(Refusal::NotDue);
    }
    if !is_made(moduli, bit) {
        return Step::Refused(Refusal::NotMade);
    }
    if moduli[bit as usize] != 2 {
        return Step::Refused(Refusal::ModuliDiffer);
    }
    if 1024 <= moduli.len() {
        return Step::Refused(Refusal::TooMany);
    }
    let wire = bit as u16;
    Step::Goes(Due::Branches(wire))
}

pub fn branches_item(moduli: &[u8], due: Due, a: u32, b: u32) -> Step
    requires { length moduli.now ≤ 1024 }
    ensures { result ≡ branches_item moduli.now due a b }
{
    let Due::Branches(bit) = due else {
        return Step::Refused(Refusal::NotDue);
    };
    if !both_made(moduli, a, b) {
        return Step::Refused(Refusal::NotMade);
    }
    let modulus = moduli[a as usize];
    if modulus != moduli[b as usize] {
        return Step::Refused(Refusal::ModuliDiffer);
    }
    let left = a as u16;
    let right = b as u16;
    makes(
        Gate::Select(Choice {
            bit,
            a: left,
            b: right,
        }),
        modulus,
        Due::Gates,
    )
}

pub fn output_item(moduli: &[u8], given: usize, due: Due, a: u32) -> Step
    requires { length moduli.now ≤ 1024 }
    ensures { result ≡ output_item moduli.now given due a }
{
    if !output_due(due) {
        return Step::Refused(Refusal::NotDue);
    }
    if !is_made(moduli, a) {
        return Step::Refused(Refusal::NotMade);
    }
    if 256 <= given {
        return Step::Refused(Refusal::TooMany);
    }
    let wire = a as u16;
    Step::Gives(wire)
}

pub fn end_item(given: usize, due: Due) -> Step
    ensures { result ≡ end_item given due }
{
    match (output_due(due), given) {
        (false, _) => Step::Refused(Refusal::NotDue),
        (true, 0) => Step::Refused(Refusal::NoOutput),
        (true, _) => Step::Ends,
    }
}

// What an item does at an index of the file, where `given` outputs are given, and `due` is due.
pub fn judge(moduli: &[u8], given: usize, at: u32, due: Due, item: Item) -> Step
    requires { (length moduli.now ≤ 1024) × (at + 1 < 2 ^ 32) }
    ensures { result ≡ judged moduli.now given at due item }
{
    match item {
        Item::Head => Step::Refused(Refusal::NotDue),
        Item::Input(owner, modulus) => input_item(moduli.len(), due, owner, modulus),
        Item::Add(a, b) => pair_item(moduli, due, false, a, b),
        Item::Scale(constant, a) => scale_item(moduli, due, constant, a),
        Item::Multiply(a, b) => pair_item(moduli, due, true, a, b),
        Item::Project(modulus, a) => project_item(moduli, at, due, modulus, a),
        Item::Entry(image) => entry_item(due, image),
        Item::Select(bit) => select_item(moduli, due, bit),
        Item::Branches(a, b) => branches_item(moduli, due, a, b),
        Item::Output(_, a) => output_item(moduli, given, due, a),
        Item::End => end_item(given, due),
    }
}
