// The first ten primes, and the products of the first of them.
ghost use Rattle.std.specs.Prelude.{◌≡◌, ◌≤◌, ◌<◌};
ghost use Rattle.bundles.specs.Primes.{prime, product};

use residue::prime_table;

pub fn prime(i: usize) -> u8
    requires { i < 10 }
    ensures { result ≡ prime i }
{
    let table = prime_table();
    table[i]
}

// The product of the first r primes; that of all ten has 33 bits.
pub fn product(r: usize) -> u64
    requires { r ≤ 10 }
    ensures { result ≡ product r }
{
    let mut all = 1u64;
    for i in 0..r {
        all *= u64::from(prime(i));
    }
    all
}
