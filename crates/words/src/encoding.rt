// The word that says an item. A field that is too wide is cut so that it reaches neither another nor the kind; whoever lays down a word has seen that its
// fields fit.
ghost use Rattle.std.specs.Prelude.{◌≡◌, ◌+◌, ◌*◌, ◌%◌, ◌≤◌};
ghost use Rattle.words.specs.Cut.{cut_word};

use super::item::Item;

// A kind with two fields, of which the second has ten bits.
fn two(kind: u32, high: u32, low: u32) -> u32
    requires { kind ≤ 0xb000_0000 }
    ensures { result ≡ kind + 1024 * (high % 1024) + low % 1024 }
{
    kind + 1024 * (high % 1024) + low % 1024
}

// The word of an item whose fields are not too wide for their bits; law `cut_fits` says so.
pub fn encode(item: Item) -> u32
    ensures { result ≡ cut_word item }
{
    match item {
        Item::Head => 0x1000_0000,
        Item::Input(owner, modulus) => 0x2000_0000 + 65536 * (owner % 256) + modulus % 256,
        Item::Add(a, b) => two(0x3000_0000, a, b),
        Item::Scale(constant, a) => two(0x4000_0000, constant, a),
        Item::Multiply(a, b) => two(0x5000_0000, a, b),
        Item::Project(modulus, a) => two(0x6000_0000, modulus, a),
        Item::Entry(image) => 0x7000_0000 + image % 1024,
        Item::Select(bit) => 0x8000_0000 + bit % 1024,
        Item::Branches(a, b) => two(0x9000_0000, a, b),
        Item::Output(named, a) => two(0xA000_0000, named, a),
        Item::End => 0xB000_0000,
    }
}
