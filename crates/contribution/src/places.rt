// Where things lie in a contribution: its size, the place of each offset among the moduli in use, and a cursor that goes from one wire's record to the next.
ghost use Rattle.std.specs.Prelude.{◌≡◌, ◌+◌, ◌*◌, ◌≤◌, ◌<◌, length, get_or};
ghost use Rattle.lists.specs.Blocks.{tab};
ghost use Rattle.counts.specs.Recipe.{recipe};
ghost use Rattle.circuit.specs.Held.{wires_in, Room};
ghost use Rattle.counts.specs.Counts.{Counts, record_keys_by};
ghost use Rattle.counts.specs.Moduli.{used_below};
ghost use Rattle.scheme.specs.Contribution.{contribution_size, record_at};

use circuit::Circuit;
use counts::{marks, moduli_used, record_count, records};
use lists::zeros;
use words::Wire;

// For each byte p, how many moduli in use are below it: the place of p's offset, where p is in use. There are no more than p.
pub fn ranks(circuit: Circuit) -> [u8; 256]
    requires { Room circuit }
    ensures { result ≡ tab 256 (used_below (wires_in circuit)) }
{
    let marks = marks(circuit);
    let mut ranks = zeros();
    for p in 0..255 {
        ranks[p + 1] = ranks[p] + marks[p];
    }
    ranks
}

// Where the offset of modulus `p` starts, by its rank.
pub fn offset_place(ranks: &[u8], p: u8, k: usize) -> usize
    requires { (p < length ranks.now) × (k ≤ 128) }
    ensures { result ≡ k * get_or ranks.now p 0 }
{
    k * usize::from(ranks[usize::from(p)])
}

// K bytes for each modulus in use, and K + 1 for each key of the records.
pub fn contribution_size(circuit: Circuit, k: usize) -> usize
    requires { Room circuit × (k ≤ 128) }
    ensures { Counts 429056 (contribution_size k (wires_in circuit)) result }
{
    let moduli = moduli_used(circuit) as usize;
    let keys = records(circuit) as usize;
    k * moduli + (k + 1) * keys
}

// The first wire's record stands behind all offsets.
pub fn first_record(circuit: Circuit, k: usize) -> usize
    requires { Room circuit × (k ≤ 128) }
    ensures { result ≡ record_at k (wires_in circuit) 0 }
{
    k * moduli_used(circuit) as usize
}

// The bytes of a record's keys: its mask shares stand behind them.
pub fn record_keys(wire: Wire, k: usize) -> usize
    requires { k ≤ 128 }
    ensures { result ≡ k * record_keys_by (recipe wire) }
{
    k * record_count(wire) as usize
}

// The bytes of a record: keys, and as many shares. The next wire's record stands behind them.
pub fn record_size(wire: Wire, k: usize) -> usize
    requires { k ≤ 128 }
    ensures { result ≡ (k + 1) * record_keys_by (recipe wire) }
{
    (k + 1) * record_count(wire) as usize
}
