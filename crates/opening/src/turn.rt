// One turn of the pass: `n` parties, key length `k`, the party that opens, the round, the wire at hand and its modulus; `over` is the modulus of the wire that a table is over; where in
// the party's contribution the zero key of the wire's record and the offset of its modulus start.
// A type of its own, as each pass has one: what they share, as a struct within, would stand before n, k, round, wire and modulus in every definition.
#[derive(Clone, Copy)]
pub struct Turn {
    pub n: usize,
    pub k: usize,
    pub party: usize,
    pub round: u32,
    pub wire: u32,
    pub modulus: u8,
    pub over: u8,
    pub zero: usize,
    pub offset: usize,
}
