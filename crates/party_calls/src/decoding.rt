// Decoding as a call: the values of the outputs that a party may read, from external values and the party's sheet of output masks. What comes behind the
// earlier checks is `decode_behind`, which the two-party form has too.
ghost use Rattle.std.specs.Prelude.{◌≡◌, true, cond, ◌<◌, length};
ghost use Rattle.residue.specs.Residue.{sub};
ghost use Rattle.checks.specs.Answer.{number_in, place_in};
ghost use Rattle.circuit.specs.Held.{Held};
ghost use Rattle.calls.specs.Decode.{DecodeCall};
ghost use Rattle.party_calls.specs.Decoding.{bytes_by, lent_by, made_by, Masked, Decodes, Ready, Decoded};

use super::either::either_checked;
use super::tables::output_moduli;
use checks::Answer;
use circuit::{Circuit, may_read, read};
use counts::moduli;
use residue::sub;
use session::{lengths_checked, partakers_checked, parties_checked, party_checked};

// Each external value below its wire's modulus, each mask that the party may read below that of its output's wire.
fn masks_checked(circuit: Circuit, party: u32, externals: &[u8], masks: &[u8]) -> Answer
    requires { Masked circuit externals.now masks.now }
    ensures { result ≡ bytes_by circuit party externals.now masks.now }
{
    let wires = moduli(circuit);
    let outputs = output_moduli(circuit);
    let named = circuit.named;
    either_checked(externals, &wires, masks, &outputs, &named, party)
}

// The lengths of what is lent, and where they are right the bytes.
fn lent_checked(
    circuit: Circuit,
    party: u32,
    externals: &[u8],
    masks: &[u8],
    bytes: usize,
) -> Answer
    requires { Held circuit }
    ensures { result ≡ lent_by circuit party externals.now masks.now bytes }
{
    lengths_checked(
        &[externals.len(), masks.len(), bytes],
        &[circuit.made, circuit.given, circuit.given],
    )?;
    masks_checked(circuit, party, externals, masks)
}

// What is shown of an output: its external value less its mask, and 255, which is no value, to a party that may not read it.
fn shown(may: bool, p: u8, external: u8, mask: u8) -> u8
    requires { (external < p) × (may ≡ true → mask < p) }
    ensures { result ≡ cond may (sub p external mask) 255 }
{
    if may { sub(p, external, mask) } else { 255 }
}

// What is shown of each output.
fn put_decoded(circuit: Circuit, party: u32, externals: &[u8], masks: &[u8], results: &mut [u8])
    requires { Decodes circuit party externals.now masks.now (length results.old) }
    ensures { results.new ≡ made_by circuit party externals.now masks.now }
{
    let table = output_moduli(circuit);
    for i in 0..circuit.given {
        let p = table[i];
        let at = usize::from(circuit.outputs[i]);
        let may = may_read(circuit.named[i], party);
        results[i] = shown(may, p, externals[at], masks[i]);
    }
}

// What the outputs stand for, to a party, where all earlier checks accept. Of a circuit that names nobody everyone may read all outputs.
pub fn decode_behind(
    circuit: Circuit,
    party: u32,
    externals: &[u8],
    masks: &[u8],
    results: &mut [u8],
) -> Answer
    requires { Ready circuit }
    ensures { Decoded circuit party externals.now masks.now results.old result results.new }
{
    lent_checked(circuit, party, externals, masks, results.len())?;
    put_decoded(circuit, party, externals, masks, results);
    Ok(())
}

// What the outputs stand for to a party: one byte for each, 255 for those that it may not read. Refused or not, the contract gives the answer and every byte of
// `results`.
pub fn decode(
    file: &[u8],
    n: u32,
    party: u32,
    externals: &[u8],
    masks: &[u8],
    results: &mut [u8],
) -> Answer
    ensures { DecodeCall file.now n party externals.now masks.now results.old (number_in result) (place_in result) results.new }
{
    let circuit = read(file)?;
    parties_checked(n)?;
    party_checked(n, party)?;
    partakers_checked(circuit, n)?;
    decode_behind(circuit, party, externals, masks, results)
}
