// What all parties drew, taken out of their contributions: their keys at one place, one after another, and the sum of their mask shares at one place.
ghost use Rattle.std.specs.Prelude.{◌≡◌, ◌+◌, ◌*◌, ◌%◌, ◌≤◌, ◌<◌, length, get_or};
ghost use Rattle.lists.specs.Blocks.{blocks, sum_to, part, nth_piece};

use lists::{nth_piece, piece, put_at};

// The contributions of `n` parties, one after another, of `size` bytes each; a key in them has `k`.
#[derive(Clone, Copy)]
pub struct Drawn<'a> {
    pub n: usize,
    pub k: usize,
    pub size: usize,
    pub contributions: &'a [u8],
}

impl Drawn<'_> {
    // The `k` bytes from place `at` on of each contribution.
    pub fn gather(self, at: usize, out: &mut [u8])
        requires contributions_len { (length self.contributions.now ≡ self.n * self.size) × (at + self.k ≤ self.size) }
        requires out_len { length out.old ≡ self.n * self.k }
        ensures { out.new ≡ blocks self.entry.n (λ party. part (nth_piece self.entry.contributions.now self.entry.size party) at self.entry.k) }
    {
        let mut to = 0;
        for party in 0..self.n {
            let own = nth_piece(self.contributions, self.size, party);
            put_at(out, to, piece(own, at, self.k));
            to += self.k;
        }
    }

    // The sum modulo `p` of the bytes at place `at` of each contribution.
    pub fn share_sum(self, at: usize, p: u8) -> u8
        requires contributions_len { (length self.contributions.now ≡ self.n * self.size) × (at < self.size) }
        requires n_bound { (self.n ≤ 8) × (0 < p) }
        ensures { result ≡ sum_to self.entry.n (λ party. get_or (nth_piece self.entry.contributions.now self.entry.size party) at 0) % p }
    {
        let mut total = 0;
        for party in 0..self.n {
            let bytes = nth_piece(self.contributions, self.size, party);
            total += u32::from(bytes[at]);
        }
        (total % u32::from(p)) as u8
    }
}
