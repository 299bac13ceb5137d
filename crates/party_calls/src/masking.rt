// The external values of a party's own inputs, as a call: the values, hidden by their masks.
ghost use Rattle.std.specs.Prelude.{◌≡◌, length};
ghost use Rattle.checks.specs.Answer.{number_in, place_in};
ghost use Rattle.circuit.specs.Held.{wires_in, Room};
ghost use Rattle.calls.specs.Externals.{externals_bytes, externals_lent, externals_made, ExternalsCall};
ghost use Rattle.party_calls.specs.Masking.{OwnLent, OwnFit};

use super::either::either_checked;
use super::tables::own_moduli;
use checks::Answer;
use circuit::{Circuit, read};
use counts::inputs_of;
use lists::zeros;
use residue::add;
use session::{lengths_checked, partakers_checked, parties_checked, party_checked};

// Each value and each mask below the modulus of its own input. Both are held to the same table, and every mask counts, since nobody is named.
fn own_checked(circuit: Circuit, party: u32, values: &[u8], masks: &[u8]) -> Answer
    requires { OwnLent circuit party values.now masks.now }
    ensures { result ≡ externals_bytes party (wires_in circuit) values.now masks.now }
{
    let own = own_moduli(circuit, party);
    let everyone = zeros::<1024>();
    either_checked(values, &own, masks, &own, &everyone, party)
}

// The lengths of what is lent, and where they are right the bytes.
fn given_checked(circuit: Circuit, party: u32, values: &[u8], masks: &[u8], bytes: usize) -> Answer
    requires { Room circuit }
    ensures { result ≡ externals_lent party (wires_in circuit) values.now masks.now bytes }
{
    let own = inputs_of(circuit, party) as usize;
    lengths_checked(&[values.len(), masks.len(), bytes], &[own, own, own])?;
    own_checked(circuit, party, values, masks)
}

// Each own input's value plus its mask.
fn put_externals(circuit: Circuit, party: u32, values: &[u8], masks: &[u8], externals: &mut [u8])
    requires { OwnFit circuit party values.now masks.now (length externals.old) }
    ensures { externals.new ≡ externals_made party (wires_in circuit) values.now masks.now }
{
    let table = own_moduli(circuit, party);
    for i in 0..values.len() {
        let p = table[i];
        externals[i] = add(p, values[i], masks[i]);
    }
}

// One byte for each input that the party owns. Refused or not, the contract gives the answer and every byte of `externals`.
pub fn externals(
    file: &[u8],
    n: u32,
    party: u32,
    values: &[u8],
    masks: &[u8],
    externals: &mut [u8],
) -> Answer
    ensures { ExternalsCall file.now n party values.now masks.now externals.old (number_in result) (place_in result) externals.new }
{
    let circuit = read(file)?;
    parties_checked(n)?;
    party_checked(n, party)?;
    partakers_checked(circuit, n)?;
    given_checked(circuit, party, values, masks, externals.len())?;
    put_externals(circuit, party, values, masks, externals);
    Ok(())
}
