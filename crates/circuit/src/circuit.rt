// Circuits, lawful by their type.
ghost use Rattle.std.specs.Prelude.{◌+◌, ◌≤◌, length};
ghost use Rattle.circuit.specs.Gates.{Below, Driven, total_rows};

use crate::gate::Gate;

/// Nets 1 to `inputs` are the inputs; gate i, counted from 0, drives net `inputs` + i + 1 and reads nets below it;
/// `outputs` are the output nets. The rows of all tables together are at most 64.
#[derive(Drop)]
pub struct Circuit {
    pub inputs: u8,
    pub gates: Vec<Gate>,
    pub outputs: Vec<u8>,
    ghost few: { (1 ≤ inputs) × (inputs ≤ 16) },
    ghost sized: { (1 ≤ length gates.items) × (length gates.items ≤ 200) },
    ghost shown: { (1 ≤ length outputs.items) × (length outputs.items ≤ 16) },
    ghost below: { Below inputs gates.items },
    ghost driven: { Driven (inputs + length gates.items) outputs.items },
    ghost rows: { total_rows gates.items ≤ 64 },
}
