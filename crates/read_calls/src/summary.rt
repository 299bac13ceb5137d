// What a circuit file holds, in numbers: the file is read, and the circuit that was made is counted. Wires and moduli are counted here,
// in the function that holds the circuit, since every function that takes a circuit gets a copy of its 16 KB.
ghost use Rattle.std.specs.Prelude.{◌≡◌, Err, IfOk, IfErr};
ghost use Rattle.circuit.specs.File.{read_file};
ghost use Rattle.read_calls.specs.Summary.{Summarizes};

use checks::Refused;
use circuit::read;
use counts::{marks_set, record_count, row_count};
use lists::zeros;

#[derive(Clone, Copy)]
pub struct Summary {
    pub wires: u32,
    pub inputs: u32,
    pub outputs: u32,
    pub rows: u32,
    pub moduli: u32,
    pub records: u32,
}

// Reading: how many wires, inputs, outputs, rows, moduli and records an accepted circuit has.
pub fn summary_of(file: &[u8]) -> Result<Summary, Refused>
    ensures ok { IfOk result (λ summary. Summarizes file.now summary) }
    ensures err { IfErr result (λ why. (read_file file.now).answer ≡ Err why) }
{
    let circuit = read(file)?;
    let mut table = zeros::<1024>();
    let mut marks = zeros::<256>();
    for (i, wire) in circuit.wires[..circuit.made].iter().enumerate() {
        table[i] = wire.modulus;
        marks[usize::from(wire.modulus)] = 1;
    }
    let mut rows = 0;
    let mut records = 0;
    for wire in &circuit.wires[..circuit.made] {
        rows += row_count(*wire, &table);
        records += record_count(*wire);
    }
    Ok(Summary {
        wires: circuit.made as u32,
        inputs: circuit.inputs as u32,
        outputs: circuit.given as u32,
        rows,
        moduli: marks_set(marks),
        records,
    })
}
