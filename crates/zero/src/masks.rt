// The masks of all wires.
ghost use Rattle.std.specs.Prelude.{◌≡◌, ◌<◌, get_or};
ghost use Rattle.residue.specs.Residue.{add};
ghost use Rattle.counts.specs.Recipe.{recipe};
ghost use Rattle.plain.specs.Ready.{Below};
ghost use Rattle.zero.specs.Ready.{Contributed, Masks};
ghost use Rattle.zero.specs.Turn.{mask_here, MaskAsked};

use super::shares::Drawn;
use circuit::Circuit;
use contribution::{first_record, record_keys, record_size};
use counts::{Recipe, recipe_of};
use lists::zeros;
use plain::{scaled, sum};
use words::{Choice, Wire};

// The share that was drawn and the mask of wire a, which a choice gives at 0.
fn with_first(p: u8, gate: Choice, share: u8, masks: &[u8]) -> u8
    requires { Below masks.now p gate.a × (share < p) }
    ensures { result ≡ add p share (get_or masks.now gate.a 0) }
{
    residue::add(p, share, masks[usize::from(gate.a)])
}

// The mask of one wire, whose shares stand at place `at`, from the masks of lower wires.
fn wire_mask(wire: Wire, at: usize, drawn: Drawn, masks: &[u8]) -> u8
    requires { MaskAsked drawn.n drawn.size at wire.modulus (recipe wire) drawn.contributions.now masks.now }
    ensures { result ≡ mask_here drawn.entry.n drawn.entry.size at drawn.entry.contributions.now masks.now wire }
{
    let p = wire.modulus;
    match recipe_of(wire) {
        Recipe::Entered | Recipe::Table(_) | Recipe::Product(_) => drawn.share_sum(at, p),
        Recipe::Sum(pair) => sum(p, pair, masks),
        Recipe::Multiple(scaling) => scaled(p, scaling, masks),
        Recipe::Choice(choice) => with_first(p, choice, drawn.share_sum(at, p), masks),
    }
}

// Each wire's mask, in the order of the wires.
pub fn wire_masks(circuit: Circuit, file: &[u8], drawn: Drawn) -> [u8; 1024]
    requires { Contributed file.now circuit drawn.n drawn.k drawn.size drawn.contributions.now }
    ensures { Masks circuit drawn.entry.n drawn.entry.k drawn.entry.contributions.now result }
{
    let mut masks = zeros();
    let mut at = first_record(circuit, drawn.k);
    for (w, wire) in circuit.wires[..circuit.made].iter().enumerate() {
        masks[w] = wire_mask(*wire, at + record_keys(*wire, drawn.k), drawn, &masks);
        at += record_size(*wire, drawn.k);
    }
    masks
}
