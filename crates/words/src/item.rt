// What is said at a place of a circuit file: a kind with its fields. A word says an item, and so does a record of the editor's, whose fields may
// be any numbers.

// In the order of their kinds, 1 to 11; the fields in the order of a word's bits, from the highest down.
#[derive(Clone, Copy, Debug, PartialEq, Eq)]
pub enum Item {
    Head,
    // owner and modulus
    Input(u32, u32),
    // wire a and wire b
    Add(u32, u32),
    // constant and wire
    Scale(u32, u32),
    // wire a and wire b
    Multiply(u32, u32),
    // output modulus and wire
    Project(u32, u32),
    // image
    Entry(u32),
    // the bit's wire
    Select(u32),
    // wire a and wire b
    Branches(u32, u32),
    // the parties named and wire
    Output(u32, u32),
    End,
}
