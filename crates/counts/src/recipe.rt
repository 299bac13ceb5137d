// How a wire's gate is garbled.
ghost use Rattle.std.specs.Prelude.{◌≡◌};
ghost use Rattle.counts.specs.Recipe.{square_of, square_or_product, recipe};

use words::{Choice, Gate, Pair, Scaling, Wire};

// The images of a table. `File`: in the words of the circuit file, from the index of the image of 0 on. `Squares`: each value's
// square, in no file.
#[derive(Clone, Copy, Debug, PartialEq, Eq)]
pub enum Images {
    File(u32),
    Squares,
}

// A table of the values of wire `a`.
#[derive(Clone, Copy, Debug, PartialEq, Eq)]
pub struct Lookup {
    pub a: u16,
    pub images: Images,
}

// `Entered`: an input. `Sum` and `Multiple`: of the keys of lower wires, with no rows. `Table`: a row for each value of a wire.
// `Product`: two rows for each value. `Choice`: a product with a bit, and the rows of the bit.
#[derive(Clone, Copy, Debug, PartialEq, Eq)]
pub enum Recipe {
    Entered,
    Sum(Pair),
    Multiple(Scaling),
    Table(Lookup),
    Product(Pair),
    Choice(Choice),
}

// A wire times itself, of modulus p. A bit's square is the bit: a copy, with no rows. Any other is a table, at half a product's rows.
fn square_of(a: u16, p: u8) -> Recipe
    ensures { result ≡ square_of a p }
{
    if p == 2 {
        Recipe::Multiple(Scaling { constant: 1, a })
    } else {
        Recipe::Table(Lookup {
            a,
            images: Images::Squares,
        })
    }
}

// A product of two wires of modulus p, or a square.
fn square_or_product(g: Pair, p: u8) -> Recipe
    ensures { result ≡ square_or_product g p }
{
    if g.a == g.b {
        square_of(g.a, p)
    } else {
        Recipe::Product(g)
    }
}

#[tactic(auto, unfolding(crate::specs::Recipe::recipe))]
pub fn recipe_of(wire: Wire) -> Recipe
    ensures { result ≡ recipe wire }
{
    match wire.gate {
        Gate::Input(_) => Recipe::Entered,
        Gate::Add(g) => Recipe::Sum(g),
        Gate::Scale(g) => Recipe::Multiple(g),
        Gate::Multiply(g) => square_or_product(g, wire.modulus),
        Gate::Project(g) => Recipe::Table(Lookup {
            a: g.a,
            images: Images::File(g.table),
        }),
        Gate::Select(g) => Recipe::Choice(g),
    }
}
