// What is printed for a circuit: a line for each wire and the total, or why it is refused.
ghost use Rattle.std.specs.Prelude.{◌≡◌, ◌+◌, ◌≤◌, ◌<◌, length};
ghost use Rattle.checks.specs.Answer.{number_of};
ghost use Rattle.circuit.specs.File.{read_file};
ghost use Rattle.circuit.specs.Held.{wires_in, Room};
ghost use Rattle.counts.specs.Kinds.{kind_of};
ghost use Rattle.prices.specs.Prices.{line_of, wire_lines, listing, refusal, listed};
ghost use Rattle.prices.specs.Placed.{Placed, PlacedWithin, Narrow};

use super::text::{put_number, put_text};
use checks::Refusal;
use circuit::Circuit;
use words::{Gate, Wire};

// The kind of a gate's first word.
fn kind_of(gate: Gate) -> u64
    ensures { (result ≡ kind_of gate) × (result < 10) }
{
    match gate {
        Gate::Input(_) => 2,
        Gate::Add(_) => 3,
        Gate::Scale(_) => 4,
        Gate::Multiply(_) => 5,
        Gate::Project(_) => 6,
        Gate::Select(_) => 8,
    }
}

// A wire's four numbers on a line.
fn put_line(out: &mut [u8], at: usize, wire: u64, kind: u64, modulus: u64, rows: u64) -> usize
    requires { Narrow wire kind modulus rows × (at + 15 ≤ length out.old) }
    ensures { PlacedWithin 15 out.old at (line_of wire kind modulus rows) result out.new }
{
    let a = put_number(out, at, wire, b' ');
    let b = put_number(out, a, kind, b' ');
    let c = put_number(out, b, modulus, b' ');
    put_number(out, c, rows, b'\n')
}

// A wire's line, by its number, its gate and modulus, and its rows.
fn put_wire(out: &mut [u8], at: usize, w: usize, wire: Wire, rows: u32) -> usize
    requires { (w < 1024) × ((rows ≤ 512) × (at + 15 ≤ length out.old)) }
    ensures { PlacedWithin 15 out.old at (line_of w (kind_of wire.gate) wire.modulus rows) result out.new }
{
    let kind = kind_of(wire.gate);
    let modulus = u64::from(wire.modulus);
    put_line(out, at, w as u64, kind, modulus, u64::from(rows))
}

// The lines of all wires.
fn put_wires(out: &mut [u8], at: usize, circuit: Circuit) -> usize
    requires { Room circuit × (at + 15360 ≤ length out.old) }
    ensures { PlacedWithin 15360 out.old at (wire_lines (wires_in circuit)) result out.new }
{
    let moduli = counts::moduli(circuit);
    let mut end = at;
    for (w, wire) in circuit.wires[..circuit.made].iter().enumerate() {
        end = put_wire(out, end, w, *wire, counts::row_count(*wire, &moduli));
    }
    end
}

// The listing of an accepted circuit.
fn put_listing(out: &mut [u8], circuit: Circuit) -> usize
    requires { Room circuit × (16384 ≤ length out.old) }
    ensures { Placed out.old 0 (listing (wires_in circuit)) result out.new }
{
    let a = put_text(out, 0, b"wire kind modulus rows\n");
    let b = put_wires(out, a, circuit);
    let c = put_text(out, b, b"total ");
    let total = counts::rows(circuit);
    put_number(out, c, u64::from(total), b'\n')
}

// Why a circuit is refused, and at which word.
fn put_refusal(out: &mut [u8], reason: Refusal, place: usize) -> usize
    requires { 16384 ≤ length out.old }
    ensures { Placed out.old 0 (refusal (number_of reason) place) result out.new }
{
    let number = u32::from(reason);
    let a = put_text(out, 0, b"refused ");
    let b = put_number(out, a, u64::from(number), b' ');
    let c = put_text(out, b, b"at ");
    put_number(out, c, place as u64, b'\n')
}

// What is printed for a circuit file.
pub fn put_circuit(out: &mut [u8], file: &[u8]) -> usize
    requires { 16384 ≤ length out.old }
    ensures { Placed out.old 0 (listed (read_file file.now).answer (read_file file.now).wires) result out.new }
{
    match circuit::read(file) {
        Ok(circuit) => put_listing(out, circuit),
        Err(why) => put_refusal(out, why.reason, why.place),
    }
}
