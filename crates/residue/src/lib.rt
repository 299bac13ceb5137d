// Residues modulo a small prime, and key vectors of them: the 54 primes from 2 to 251 that serve as moduli; sums, differences and
// products modulo p; the same on vectors of bytes, component by component. The laws in proofs/ make an identity modulo p one line,
// and show that a factor cancels modulo a prime. Rests on nothing but std.

#![tactic(auto)]

mod keys;
mod primes;
mod residues;

pub use keys::{add_multiple, difference, key_of, scale};
pub use primes::{is_modulus, prime_from, prime_table, primes_below};
pub use residues::{add, mul, multiple_added, reciprocal, reduce, sub};
