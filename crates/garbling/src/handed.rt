// The masks that garbling hands out, out of those of all wires.
ghost use Rattle.std.specs.Prelude.{◌≡◌, cond, ◌*◌, ◌≤◌, length, take};
ghost use Rattle.lists.specs.Blocks.{blocks};
ghost use Rattle.circuit.specs.Named.{may_read};
ghost use Rattle.garbling.specs.Sheets.{sheet_here, Hands};

use circuit::{Circuit, may_read};

// Inputs are the first wires.
pub fn put_input_masks(masks: &[u8], inputs: &mut [u8])
    requires { length inputs.old ≤ length masks.now }
    ensures { inputs.new ≡ take (length inputs.old) masks.now }
{
    let count = inputs.len();
    inputs.copy_from_slice(&masks[..count]);
}

// What a party is shown of an output's mask.
fn shown(named: u8, party: u32, mask: u8) -> u8
    ensures { result ≡ cond (may_read named party) mask 255 }
{
    if may_read(named, party) { mask } else { 255 }
}

// One party's sheet: what it is shown of the mask of each output's wire, in the order of the outputs.
fn put_sheet(circuit: Circuit, masks: &[u8], party: u32, sheet: &mut [u8])
    requires { Hands circuit masks.now × (length sheet.old ≡ circuit.given) }
    ensures { sheet.new ≡ sheet_here circuit masks.now party }
{
    for (i, byte) in sheet.iter_mut().enumerate() {
        let at = usize::from(circuit.outputs[i]);
        *byte = shown(circuit.named[i], party, masks[at]);
    }
}

// The sheets of all parties, ascending.
pub fn put_sheets(circuit: Circuit, masks: &[u8], n: usize, sheets: &mut [u8])
    requires { Hands circuit masks.now × ((n ≤ 8) × (length sheets.old ≡ n * circuit.given)) }
    ensures { sheets.new ≡ blocks n (sheet_here circuit masks.now) }
{
    let given = circuit.given;
    let mut at = 0;
    for party in 0..n {
        let to = at + given;
        put_sheet(circuit, masks, party as u32, &mut sheets[at..to]);
        at = to;
    }
}
