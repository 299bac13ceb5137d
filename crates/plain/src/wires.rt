// The values of all wires, and of the outputs among them.
ghost use Rattle.std.specs.Prelude.{◌≡◌, ◌<◌, length, get_or};
ghost use Rattle.plain.specs.Plain.{plain_outputs};
ghost use Rattle.lists.specs.Blocks.{tab};
ghost use Rattle.circuit.specs.Held.{wires_in, outputs_in};
ghost use Rattle.plain.specs.Ready.{Feeds, Done, Gives};

use super::gate::wire_value;
use circuit::Circuit;
use lists::scratch;

// Each wire's value, in the order of the wires.
pub fn wire_values(circuit: Circuit, file: &[u8], values: &[u8]) -> [u8; 1024]
    requires { Feeds file.now circuit values.now circuit.given }
    ensures { Done file.now (wires_in circuit) values.now circuit.made result }
{
    let mut done = scratch();
    for (w, wire) in circuit.wires[..circuit.made].iter().enumerate() {
        done[w] = wire_value(*wire, w, file, values, &done);
    }
    done
}

// The values of the outputs' wires, in the order of the outputs.
pub fn put_outputs(circuit: Circuit, done: &[u8], outputs: &mut [u8])
    requires { Gives circuit done.now (length outputs.old) }
    ensures { outputs.new ≡ tab (length (outputs_in circuit)) (λ i. get_or done.now (get_or (outputs_in circuit) i 0) 0) }
{
    for (i, wire) in circuit.outputs[..circuit.given].iter().enumerate() {
        outputs[i] = done[usize::from(*wire)];
    }
}

// The plain circuit's outputs.
pub fn evaluate(circuit: Circuit, file: &[u8], values: &[u8], outputs: &mut [u8])
    requires { Feeds file.now circuit values.now (length outputs.old) }
    ensures { outputs.new ≡ plain_outputs file.now (wires_in circuit) (outputs_in circuit) values.now }
{
    let done = wire_values(circuit, file, values);
    put_outputs(circuit, &done, outputs);
}
