// What words stand for: gates, wires, and what may come next.
use checks::Refusal;

// An input's owner.
#[derive(Clone, Copy, Debug, PartialEq, Eq)]
pub struct Owned {
    pub owner: u8,
}

// The wires of a sum or a product.
#[derive(Clone, Copy, Debug, PartialEq, Eq)]
pub struct Pair {
    pub a: u16,
    pub b: u16,
}

// A wire and the constant that it is multiplied by.
#[derive(Clone, Copy, Debug, PartialEq, Eq)]
pub struct Scaling {
    pub constant: u8,
    pub a: u16,
}

// A wire and the index in the file of the word with the image of 0.
#[derive(Clone, Copy, Debug, PartialEq, Eq)]
pub struct Projection {
    pub a: u16,
    pub table: u32,
}

// The bit that chooses, the wire taken at 0 and the wire taken at 1.
#[derive(Clone, Copy, Debug, PartialEq, Eq)]
pub struct Choice {
    pub bit: u16,
    pub a: u16,
    pub b: u16,
}

// Document 01: "Each gate is one of six kinds, and each kind carries its own fields (an input counts as one)".
#[derive(Clone, Copy, Debug, PartialEq, Eq)]
pub enum Gate {
    Input(Owned),
    Add(Pair),
    Scale(Scaling),
    Multiply(Pair),
    Project(Projection),
    Select(Choice),
}

// A wire: the gate that makes it, and its modulus.
#[derive(Clone, Copy, Debug, PartialEq, Eq)]
pub struct Wire {
    pub gate: Gate,
    pub modulus: u8,
}

// What is due: an input or anything after the inputs; a gate or anything after the gates; an output or the end; so many entries
// below a modulus; the branches of a selection by a bit.
#[derive(Clone, Copy, Debug, PartialEq, Eq)]
pub enum Due {
    Inputs,
    Gates,
    Outputs,
    Entries(u8, u8),
    Branches(u16),
}

// What a word does: it is refused; it makes a wire; it only changes what is due; it gives an output; it ends the circuit. To be refused is one of five
// outcomes, each with an arm of its own: a `Result` around the four others would nest two enums in every match.
#[derive(Clone, Copy, Debug, PartialEq, Eq)]
pub enum Step {
    Refused(Refusal),
    Makes(Wire, Due),
    Goes(Due),
    Gives(u16),
    Ends,
}
