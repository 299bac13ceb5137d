// At each party the external values of its own inputs, put to their wires.
ghost use Rattle.std.specs.Prelude.{◌≡◌, ◌≤◌, length, take};
ghost use Rattle.checks.specs.Answer.{accepts};
ghost use Rattle.circuit.specs.Wires.{inputs_in};
ghost use Rattle.circuit.specs.File.{read_file};
ghost use Rattle.circuit.specs.Held.{wires_in, Held};
ghost use Rattle.calls.specs.Externals.{ExternalsCall};
ghost use Rattle.rehearsal.specs.Hosts.{own_scattered, OwnCall, Masked};

use super::hosts::{blank, picked, scatter};
use circuit::{Circuit, read};
use counts::inputs_of;
use engine::{Reported, lupiknam_externals};
use lists::piece;

// The call, on the first `count` bytes of each buffer.
pub fn ask(
    file: &[u8],
    n: u32,
    party: u32,
    count: usize,
    values: &[u8],
    masks: &[u8],
    out: &mut [u8],
) -> Reported
    requires { (count ≤ length values.now) × ((count ≤ length masks.now) × (count ≤ length out.old)) }
    ensures { ExternalsCall file.now n party (take count values.now) (take count masks.now) (take count out.old)
        result.number result.place (take count out.new) }
{
    let own = piece(values, 0, count);
    let hidden = piece(masks, 0, count);
    lupiknam_externals(file, n, party, own, hidden, &mut out[..count])
}

// A party's call for the external values of its own inputs, from all inputs' values and masks; what it wrote is put to the wires.
pub fn party_externals(
    file: &[u8],
    circuit: Circuit,
    n: u32,
    party: u32,
    values: &[u8],
    masks: &[u8],
    externals: &mut [u8],
) -> Reported
    requires { Held circuit × (length externals.old ≡ circuit.inputs) }
    ensures { OwnCall file.now n (wires_in circuit) values.now masks.now party result.number result.place
        × (externals.new ≡ own_scattered file.now n (wires_in circuit) values.now masks.now party externals.old) }
{
    let count = inputs_of(circuit, party) as usize;
    let own = picked(circuit, party, values);
    let hidden = picked(circuit, party, masks);
    let mut mine = blank();
    let answer = ask(file, n, party, count, &own, &hidden, &mut mine);
    scatter(circuit, party, &mine, externals);
    answer
}

// At each party the external values of its own inputs; together they stand in wire order.
fn externals_of_all(
    file: &[u8],
    circuit: Circuit,
    n: u32,
    values: &[u8],
    masks: &[u8],
    externals: &mut [u8],
)
    requires { Held circuit × (length externals.old ≡ circuit.inputs) }
    ensures { Masked file.now n (wires_in circuit) values.now masks.now externals.old externals.new }
{
    let mut party = 0;
    while party < n {
        let answer = party_externals(file, circuit, n, party, values, masks, &mut *externals);
        party += 1;
    }
}

// The same, of the circuit in a file that the reader accepts.
pub fn mask_all(file: &[u8], n: u32, values: &[u8], masks: &[u8], externals: &mut [u8])
    requires accepted { (read_file file.now).answer ≡ accepts }
    requires externals_len { length externals.old ≡ inputs_in (read_file file.now).wires }
    ensures { Masked file.now n (read_file file.now).wires values.now masks.now externals.old externals.new }
{
    externals_of_all(file, read(file).unwrap(), n, values, masks, externals);
}
