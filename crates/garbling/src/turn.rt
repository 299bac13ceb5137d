// One turn of the pass: `n` parties, key length `k`, the round, the wire at hand and its modulus; and where the wire's record lies: at place `at` of each contribution of
// `size` bytes, with so many keys.
// A type of its own, as each pass has one: what they share, as a struct within, would stand before n, k, round, wire and modulus in every definition.
#[derive(Clone, Copy)]
pub struct Turn {
    pub n: usize,
    pub k: usize,
    pub round: u32,
    pub wire: u32,
    pub modulus: u8,
    pub size: usize,
    pub at: usize,
    pub count: usize,
}
