// The moduli that bytes of lent buffers are held to, as tables: one for each output, one for each input that a party owns.
ghost use Rattle.std.specs.Prelude.{◌≡◌, length, get_or};
ghost use Rattle.circuit.specs.Wires.{modulus_at};
ghost use Rattle.circuit.specs.Held.{wires_in, outputs_in, Room, Held};
ghost use Rattle.calls.specs.Externals.{own_inputs};
ghost use Rattle.party_calls.specs.Tables.{Front};

use circuit::Circuit;
use counts::{moduli, modulus_of, owned};
use lists::scratch;

// The modulus of each output's wire.
pub fn output_moduli(circuit: Circuit) -> [u8; 1024]
    requires { Held circuit }
    ensures { Front 1024 circuit.given (λ i. modulus_at (wires_in circuit) (get_or (outputs_in circuit) i 0)) result }
{
    let table = moduli(circuit);
    let mut out = scratch::<1024>();
    for (i, wire) in circuit.outputs[..circuit.given].iter().enumerate() {
        out[i] = modulus_of(&table, *wire);
    }
    out
}

// The modulus of each input that a party owns. A wire that it does not own is overwritten by the next.
pub fn own_moduli(circuit: Circuit, party: u32) -> [u8; 1024]
    requires { Room circuit }
    ensures { Front 1024 (length (own_inputs party (wires_in circuit))) (λ i. modulus_at (wires_in circuit) (get_or (own_inputs party (wires_in circuit)) i 0)) result }
{
    let mut out = scratch::<1024>();
    let mut count = 0;
    for wire in &circuit.wires[..circuit.made] {
        out[count] = wire.modulus;
        count += owned(wire.gate, party) as usize;
    }
    out
}
