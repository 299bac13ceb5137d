// Bytes of lent buffers: cut out and put in, and arrays to begin with. Every crate that fills a buffer rests on these functions, on the definitions in
// `specs/Blocks` (blocks one after another, a table, a part, a list written into another), and on the laws in `proofs/`: of a part (`Parts`), of sums
// of sizes (`Sums`), of blocks (`Blocks`) and of what was written (`Written`). `Filled`, `Wrote` and `Steps` there are loop invariants with their laws,
// and each says at its top how a loop that fills a buffer is proved with it. This crate rests on the kit alone.

#![tactic(auto)]

ghost use Rattle.std.specs.Prelude.{◌≡◌, ◌+◌, ◌*◌, ◌≤◌, length, replicate};
ghost use Rattle.lists.specs.Blocks.{part, nth_piece, written};

// The `n` bytes of `s` from place `at` on. The length is said beside the list, so that a caller may index what it got.
pub fn piece(s: &[u8], at: usize, n: usize) -> &[u8]
    requires { at + n ≤ length s.now }
    ensures { (result.now ≡ part s.now at n) × (length result.now ≡ n) }
{
    let to = at + n;
    &s[at..to]
}

// `s` cut into pieces of `k` bytes: the one with number `j`.
pub fn nth_piece(s: &[u8], k: usize, j: usize) -> &[u8]
    requires { j * k + k ≤ length s.now }
    ensures { (result.now ≡ nth_piece s.now k j) × (length result.now ≡ k) }
{
    piece(s, j * k, k)
}

// Writes `from` to `out`, from place `at` on.
pub fn put_at(out: &mut [u8], at: usize, from: &[u8])
    requires { at + length from.now ≤ length out.old }
    ensures { out.new ≡ written out.old at from.now }
{
    let to = at + from.len();
    out[at..to].copy_from_slice(from);
}

// So many bytes to work in. No promise says what is in them, so that a proof can rest only on what was written there before it is read.
pub fn scratch<const N: usize>() -> [u8; N]
    ensures { length result ≡ N }
{
    [0; N]
}

// So many zero bytes, for one who needs zeros. A function of its own, so that a proof about an array has its length and not its elements before it.
pub fn zeros<const N: usize>() -> [u8; N]
    ensures { result ≡ replicate N 0 }
{
    [0; N]
}
