// What the offsets are multiplied by in the messages of one component: a factor for each alpha below the keys' modulus.
ghost use Rattle.std.specs.Prelude.{◌≡◌, ◌<◌, ℕ};
ghost use Rattle.residue.specs.Residue.{add, sub, mul};
ghost use Rattle.counts.specs.Recipe.{image_of};
ghost use Rattle.counts.specs.Images.{ImageHeld, ImagesFit};
ghost use Rattle.rows.specs.Made.{Factors};

use counts::Images;
use lists::scratch;
use residue::{add, mul, sub};

// A factor for each alpha below `p`, as `of` says it.
fn factors<F: Fn(u8) -> u8>(p: u8, of: F) -> [u8; 256]
    requires { (α : ℕ) → α < p → F.pre of α }
    ensures { (f : ℕ → ℕ) → ((α v : ℕ) → α < p → F.post of α v → v ≡ f α) → Factors p f result }
{
    let mut factors = scratch();
    for alpha in 0..p {
        factors[usize::from(alpha)] = of(alpha);
    }
    factors
}

fn linear_factor(p: u8, start: u8, step: u8, alpha: u8) -> u8
    requires { (start < p) × (alpha < p) }
    ensures { result ≡ add p start (mul p alpha step) }
{
    add(p, start, mul(p, alpha, step))
}

// start + alpha·step modulo `p`.
pub fn linear_factors(p: u8, start: u8, step: u8) -> [u8; 256]
    requires { start < p }
    ensures { Factors p (λ α. add p start (mul p α step)) result }
{
    factors(p, |alpha| linear_factor(p, start, step, alpha))
}

// The image of `v` by a table: in the file, bits 7 to 0 of its word, so the first of its bytes; or the square, modulo `q`.
pub fn image_of(file: &[u8], images: Images, q: u8, v: u8) -> u8
    requires { ImageHeld file.now v images × (0 < q) }
    ensures { result ≡ image_of file.now images q v }
{
    match images {
        Images::File(table) => {
            let entry = table as usize + usize::from(v);
            let at = 4 * entry;
            file[at]
        }
        Images::Squares => mul(q, v, v),
    }
}

fn table_factor(file: &[u8], images: Images, p: u8, q: u8, mask: u8, share: u8, alpha: u8) -> u8
    requires { ImagesFit file.now images p q × ((mask < p) × ((share < q) × (alpha < p))) }
    ensures { result ≡ add q (image_of file.now images q (sub p alpha mask)) share }
{
    let v = sub(p, alpha, mask);
    add(q, image_of(file, images, q, v), share)
}

// The image of alpha - mask, by a table of the values below `p`, plus the share, modulo `q`.
pub fn table_factors(file: &[u8], images: Images, p: u8, q: u8, mask: u8, share: u8) -> [u8; 256]
    requires { ImagesFit file.now images p q × ((mask < p) × (share < q)) }
    ensures { Factors p (λ α. add q (image_of file.now images q (sub p α mask)) share) result }
{
    factors(
        p,
        |alpha| table_factor(file, images, p, q, mask, share, alpha),
    )
}
