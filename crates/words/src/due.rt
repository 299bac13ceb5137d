// What may come next in a circuit file.
ghost use Rattle.std.specs.Prelude.{◌≡◌};
ghost use Rattle.words.specs.Items.{input_due, gate_due, output_due, after_entry};

use super::gate::Due;

pub fn input_due(due: Due) -> bool
    ensures { result ≡ input_due due }
{
    matches!(due, Due::Inputs)
}

pub fn gate_due(due: Due) -> bool
    ensures { result ≡ gate_due due }
{
    matches!(due, Due::Inputs | Due::Gates)
}

// The end is due where an output is.
pub fn output_due(due: Due) -> bool
    ensures { result ≡ output_due due }
{
    matches!(due, Due::Inputs | Due::Gates | Due::Outputs)
}

#[tactic(auto, unfolding(crate::specs::Items::after_entry))]
pub fn after_entry(left: u8, modulus: u8) -> Due
    ensures { result ≡ after_entry left modulus }
{
    if left <= 1 {
        Due::Gates
    } else {
        Due::Entries(left - 1, modulus)
    }
}
