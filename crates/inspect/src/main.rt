// Reads a pair of sheets from standard input, and says what is in it, or its first fault.
#![tactic(auto)]

use circuit::circuit::Circuit;
use circuit::gate::{Gate, Kind};
use circuit::pair::Pair;
use sheet::length::pair_length;
use sheet::read::load_pair;
use sheet::write::write_pair;
use std::io;
use streams::{read_bytes, write_fault};

/// `1 gate`, `2 gates`.
fn plural(count: usize) -> &'static str {
    if count == 1 { "" } else { "s" }
}

/// A line for each kind of gate that the circuit has.
fn print_kinds(rt: &HostRuntime, circuit: &Circuit) -> io::Result<()> {
    for kind in Kind::ALL {
        let count = circuit.gates_of(kind);
        if count > 0 {
            println!(rt; "  {kind}: {count}")?;
        }
    }
    Ok(())
}

/// A line for each table: its net, its inputs, and the first of its setting rows.
fn print_tables(rt: &HostRuntime, circuit: &Circuit) -> io::Result<()> {
    for (i, gate) in circuit.gates.iter().enumerate() {
        if let Gate::Table(inputs) = gate {
            let net = usize::from(circuit.inputs)
                .saturating_add(i)
                .saturating_add(1);
            let first = circuit.first_row(i);
            println!(rt; "  table on net {net}: inputs {inputs}, first setting row {first}")?;
        }
    }
    Ok(())
}

fn print_circuit(rt: &HostRuntime, name: &str, circuit: &Circuit) -> io::Result<()> {
    let inputs = usize::from(circuit.inputs);
    let gates = circuit.gates.len();
    let outputs = circuit.outputs.len();
    let (a, b, c) = (plural(inputs), plural(gates), plural(outputs));
    println!(rt; "{name}: {inputs} input{a}, {gates} gate{b}, {outputs} output{c}")?;
    print_kinds(rt, circuit)?;
    print_tables(rt, circuit)?;
    let rows = circuit.rows();
    println!(rt; "  setting rows in all: {rows}")
}

fn print_agreement(rt: &HostRuntime, what: &str, a: usize, b: usize) -> io::Result<()> {
    if a == b {
        return println!(rt; "{what} agree: {a}");
    }
    println!(rt; "{what} differ: target {a}, specification {b}")
}

/// Writes the pair again, and compares.
fn print_again(rt: &HostRuntime, pair: &Pair, bytes: &[u8]) -> io::Result<()> {
    let length = pair_length(pair);
    let mut again = vec![in rt.alloc(); 0u8; length]?;
    let same = write_pair(pair, &mut again).is_ok() && again.as_slice() == bytes;
    let which = if same { "the same" } else { "other" };
    println!(rt; "written again: {which} {length} bytes")
}

fn print_pair(rt: &HostRuntime, pair: &Pair, bytes: &[u8]) -> io::Result<()> {
    print_circuit(rt, "target", &pair.target)?;
    print_circuit(rt, "specification", &pair.specification)?;
    print_agreement(
        rt,
        "inputs",
        usize::from(pair.target.inputs),
        usize::from(pair.specification.inputs),
    )?;
    print_agreement(
        rt,
        "outputs",
        pair.target.outputs.len(),
        pair.specification.outputs.len(),
    )?;
    print_again(rt, pair, bytes)
}

fn main(rt: HostRuntime) -> io::Result<()> {
    let bytes = read_bytes(rt.alloc(), rt.stdin())?;
    match load_pair(rt.alloc(), bytes.as_slice()) {
        Ok(pair) => print_pair(&rt, &pair, bytes.as_slice()),
        Err(fault) => write_fault(&mut rt.stdout(), &mut rt.stderr(), &fault),
    }
}
