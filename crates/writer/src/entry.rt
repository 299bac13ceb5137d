// A record of the editor's: one input, gate or output.

// `kind` is that of the record's first word in the file: 2 input, 3 add, 4 scale, 5 multiply, 6 project, 8 select, 10 output. A field that its kind
// does not use is 0. An output's wire is in `a`, the parties that it names in `named`, bit s for party s. `lupiknam_record` of the header.
#[repr(C)]
#[derive(Clone, Copy, Debug, Default, PartialEq, Eq)]
pub struct Record {
    pub kind: u32,
    pub modulus: u32,
    pub owner: u32,
    pub constant: u32,
    pub bit: u32,
    pub a: u32,
    pub b: u32,
    pub named: u8,
}
