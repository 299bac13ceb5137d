// The checks of a part, in their order, and those that splitting and joining share. Numbers are added in 64 bits, so that none wraps.
ghost use Rattle.std.specs.Prelude.{◌≡◌, ◌&&◌, ◌+◌, ◌≤◌, leb};
ghost use Rattle.checks.specs.Checked.{unless};
ghost use Rattle.bundles.specs.Call.{range_checked, size_checked, integer_checked, constant_checked, are_below, place_checked, part_checked};

use super::gates::word_count;
use super::operation::Operation;
use super::primes::product;
use checks::{Answer, Refusal};

// One test. The place of every refusal is 0.
pub fn unless(good: bool, reason: Refusal) -> Answer
    ensures { result ≡ unless good reason 0 }
{
    if good { Ok(()) } else { Err(reason.at(0)) }
}

// 2 to 10 primes.
fn in_range(r: u32) -> bool
    ensures { result ≡ (leb 2 r && leb r 10) }
{
    (2..=10).contains(&r)
}

// 23.
pub fn range_checked(r: u32) -> Answer
    ensures { result ≡ range_checked r }
{
    unless(in_range(r), Refusal::BundleRange)
}

// 14: a byte for each residue.
pub fn size_checked(r: u32, size: usize) -> Answer
    ensures { result ≡ size_checked r size }
{
    unless(size == r as usize, Refusal::WrongLength)
}

// 24: an integer is below the product of the first r primes.
pub fn integer_checked(r: usize, integer: u64) -> Answer
    requires { r ≤ 10 }
    ensures { result ≡ integer_checked r integer }
{
    unless(integer < product(r), Refusal::IntegerTooLarge)
}

fn constant_checked(operation: Operation, r: usize) -> Answer
    requires { r ≤ 10 }
    ensures { result ≡ constant_checked operation r }
{
    match operation {
        Operation::Add(_) | Operation::Multiply(_) => Ok(()),
        Operation::Scale(constant) => integer_checked(r, constant),
    }
}

// Whether so many wires from a wire on are below a wire.
fn is_below(wire: u32, r: u32, first: u32) -> bool
    ensures { result ≡ leb (wire + r) first }
{
    u64::from(wire) + u64::from(r) <= u64::from(first)
}

// Whether the bundles that a part takes are wholly below its first wire.
fn are_below(operation: Operation, r: u32, first: u32, a: u32) -> bool
    ensures { result ≡ are_below operation r first a }
{
    match operation {
        Operation::Add(b) | Operation::Multiply(b) => {
            is_below(a, r, first) && is_below(b, r, first)
        }
        Operation::Scale(_) => is_below(a, r, first),
    }
}

// 5, 8, 22: the part in its place, and in a buffer of so many bytes.
fn place_checked(operation: Operation, r: u32, first: u32, a: u32, size: usize) -> Answer
    requires { r ≤ 10 }
    ensures { result ≡ place_checked operation r first a size }
{
    unless(are_below(operation, r, first, a), Refusal::NotMade)?;
    unless(is_below(first, r, 1024), Refusal::TooMany)?;
    unless(
        4 * word_count(operation, r as usize) <= size,
        Refusal::TooShort,
    )
}

pub fn part_checked(operation: Operation, r: u32, first: u32, a: u32, size: usize) -> Answer
    ensures { result ≡ part_checked operation r first a size }
{
    range_checked(r)?;
    constant_checked(operation, r as usize)?;
    place_checked(operation, r, first, a, size)
}
