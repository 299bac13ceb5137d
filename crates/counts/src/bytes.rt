// How long the rows of a wire are.
ghost use Rattle.std.specs.Prelude.{◌≡◌, ◌*◌, ◌≤◌, get_or};
ghost use Rattle.counts.specs.Recipe.{recipe};
ghost use Rattle.counts.specs.Counts.{rows_by};

use super::count::row_count;
use words::Wire;

// The bytes of a wire's rows, of so many bytes each, given the moduli of all wires.
pub fn row_bytes(wire: Wire, moduli: &[u8], bytes: usize) -> usize
    requires { bytes ≤ 1024 }
    ensures { result ≡ rows_by (recipe wire) (λ a. get_or moduli.now a 0) wire.modulus * bytes }
{
    row_count(wire, moduli) as usize * bytes
}
