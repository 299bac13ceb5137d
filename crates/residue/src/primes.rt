// The moduli: a table of the primes from 2 to 251, and the questions that it answers.
ghost use Rattle.std.specs.Prelude.{◌≡◌};
ghost use Rattle.residue.specs.Prime.{is_prime, primes_below, prime_from, found, Primes};

const PRIMES: [u8; 54] = [
    2, 3, 5, 7, 11, 13, 17, 19, 23, 29, 31, 37, 41, 43, 47, 53, 59, 61, 67, 71, 73, 79, 83, 89, 97,
    101, 103, 107, 109, 113, 127, 131, 137, 139, 149, 151, 157, 163, 167, 173, 179, 181, 191, 193,
    197, 199, 211, 223, 227, 229, 233, 239, 241, 251,
];

// The table, ascending: at place i the prime that has i primes below it.
pub fn prime_table() -> [u8; 54]
    ensures { Primes result }
{
    PRIMES
}

// The place of the first prime that is not below `x`, or 54 where there is none: as many primes are below `x`.
pub fn primes_below(x: u8) -> usize
    ensures { result ≡ primes_below x }
{
    prime_table().partition_point(|prime| *prime < x)
}

// The smallest prime at least `x`; above 251 no byte is one.
pub fn prime_from(x: u8) -> Option<u8>
    ensures { result ≡ found (prime_from x) }
{
    prime_table().get(primes_below(x)).copied()
}

// Whether `p` is a modulus, so a prime: then, and only then, it is the smallest from itself on.
pub fn is_modulus(p: u8) -> bool
    ensures { result ≡ is_prime p }
{
    prime_from(p) == Some(p)
}
