// What a wire is opened from: the buffers that the call is lent, and the wires opened before it.
// The party's contribution, the inputs' external values and keys, and the rows of the wire at hand.
#[derive(Clone, Copy)]
pub struct Lent<'a> {
    pub contribution: &'a [u8],
    pub externals: &'a [u8],
    pub keys: &'a [u8],
    pub rows: &'a [u8],
}

// All parties' keys and the external values of the wires before.
#[derive(Clone, Copy)]
pub struct Before<'a> {
    pub keys: &'a [u8],
    pub externals: &'a [u8],
}
