// Evaluation of a circuit, written once for every kind of value.
ghost use Rattle.std.specs.Prelude.{◌≡◌, ℕ, ◌+◌, ◌^◌, ◌≤◌, true, ◌++◌, map, length, take, drop, is_ok};
ghost use Rattle.circuit.specs.Gates.{nets as net_list, named, own_rows, total_rows, kind_of, Below};
ghost use Rattle.circuit.specs.View.{drawn};
ghost use Rattle.meaning.specs.Nets.{at, nets_from};
ghost use Rattle.value.specs.Lanes.{LaneLaws};
ghost use Rattle.value.specs.Values.{Within, unary_value, binary_value, taken, and_inputs, table_value, kind_value, row_of, gate_value, NetsHold};
ghost use Rattle.value.specs.Outcome.{Evaluated, LanesRight};
ghost use Rattle.value.specs.declared.ternary.Ternary.{Ternary};

use crate::kind::Algebra;
use circuit::circuit::Circuit;
use circuit::gate::{Binary, Gate, Inputs, Unary};
use refusal::refusal::Refusal;

/// The value of net `a`, where `nets` are the values of the nets from 1 on.
fn at<K: Algebra + Copy>(nets: &[K], a: u8) -> K
    requires { (1 ≤ a) × (a ≤ length nets.now) }
    ensures { result ≡ at K.Algebra.ops.falsity nets.now a }
{
    nets[a as usize - 1]
}

/// The value of a gate of one input.
fn of_one<K: Algebra>(unary: Unary, x: K) -> K
    ensures { result ≡ unary_value K.Algebra.ops unary x }
{
    match unary {
        Unary::Buffer => x,
        Unary::Inverter => x.inverse(),
    }
}

/// The value of a gate of two inputs.
fn of_two<K: Algebra>(binary: Binary, x: K, y: K) -> K
    ensures { result ≡ binary_value K.Algebra.ops binary x y }
{
    match binary {
        Binary::And => x.both(y),
        Binary::Or => x.either(y),
        Binary::Xor => x.differ(y),
        Binary::Nand => x.both(y).inverse(),
        Binary::Nor => x.either(y).inverse(),
        Binary::Xnor => x.differ(y).inverse(),
    }
}

/// An input as a row takes it: inverted where the row number's bit is 0.
fn taken<K: Algebra>(bit: usize, x: K) -> K
    ensures { result ≡ taken K.Algebra.ops bit x }
{
    if bit == 0 { x.inverse() } else { x }
}

/// The and of a row's value and each input's, inverted where the row number's bit is 0.
fn and_inputs<K: Algebra + Copy>(row: K, mut number: usize, inputs: &[K]) -> K
    ensures { result ≡ and_inputs K.Algebra.ops row number inputs.now }
{
    // A fold would be no plainer: its state would be of two parts, the value and the bits that are left.
    let mut value = row;
    for x in inputs {
        value = value.both(taken(number % 2, *x));
        number /= 2;
    }
    value
}

/// The value of a table, from its rows and its inputs' values: the or of what the rows make of the inputs.
fn or_rows<K: Algebra + Copy>(rows: &[K], inputs: &[K]) -> K
    requires { length rows.now ≡ 2 ^ length inputs.now }
    ensures { result ≡ table_value K.Algebra.ops (row_of K.Algebra.ops rows.now) inputs.now }
{
    // A fold would be no plainer: its closure would be this loop's body.
    let mut value = K::falsity();
    for (number, row) in rows.iter().enumerate() {
        value = value.either(and_inputs(*row, number, inputs));
    }
    value
}

/// The value of a table, from its rows and the nets.
fn of_table<K: Algebra + Copy>(rows: &[K], nets: &[K], inputs: Inputs) -> K
    requires { (Within (length nets.now) (named inputs)) × (length rows.now ≡ own_rows (Gate.Table inputs)) }
    ensures { result ≡ table_value K.Algebra.ops (row_of K.Algebra.ops rows.now) (map (at K.Algebra.ops.falsity nets.now) (named inputs)) }
{
    match inputs {
        Inputs::One(a) => or_rows(rows, &[at(nets, a)]),
        Inputs::Two(a, b) => or_rows(rows, &[at(nets, a), at(nets, b)]),
        Inputs::Three(a, b, c) => or_rows(rows, &[at(nets, a), at(nets, b), at(nets, c)]),
        Inputs::Four(a, b, c, d) => or_rows(
            rows,
            &[at(nets, a), at(nets, b), at(nets, c), at(nets, d)],
        ),
    }
}

/// A gate's value, from the setting rows of its own and the nets.
fn gate_value<K: Algebra + Copy>(rows: &[K], nets: &[K], gate: &Gate) -> K
    requires { (Within (length nets.now) (net_list gate.now)) × (length rows.now ≡ own_rows gate.now) }
    ensures { result ≡ kind_value K.Algebra.ops (kind_of gate.now) (row_of K.Algebra.ops rows.now) (map (at K.Algebra.ops.falsity nets.now) (net_list gate.now)) }
{
    match *gate {
        Gate::Unary(unary, a) => of_one(unary, at(nets, a)),
        Gate::Binary(binary, a, b) => of_two(binary, at(nets, a), at(nets, b)),
        Gate::Table(inputs) => of_table(rows, nets, inputs),
    }
}

/// Writes each gate's value behind those before it.
fn put_gates<K: Algebra + Copy>(rows: &[K], n: usize, gates: &[Gate], nets: &mut [K])
    requires below { Below n gates.now }
    requires rows { total_rows gates.now ≡ length rows.now }
    requires room { n + length gates.now ≤ length nets.old }
    ensures { nets.new ≡ nets_from (gate_value K.Algebra.ops rows.now) K.Algebra.ops.falsity 0 (take n nets.old) gates.now ++ drop (n + length gates.now) nets.old }
{
    let mut left = rows;
    for (i, gate) in gates.iter().enumerate() {
        let (own, others) = left.split_at(gate.rows());
        nets[n + i] = gate_value(own, &nets[..n + i], gate);
        left = others;
    }
}

/// Fills the first places of `nets` with the values of all nets, in order, from the values of the setting rows and of the inputs.
/// A destination that is too short is refused, and then numbers of values that are not the circuit's; it then stays as it was.
/// Whatever is read as lanes of the kind's values, a known lane of a net is the bit that every completion gives.
pub fn evaluate<K: Algebra + Copy>(
    circuit: &Circuit,
    rows: &[K],
    inputs: &[K],
    nets: &mut [K],
) -> Result<(), Refusal>
    ensures exact { Evaluated K.Algebra.ops (drawn circuit.now) rows.now inputs.now nets.old nets.new result }
    ensures holds { is_ok result ≡ true → NetsHold K.Algebra.ops (drawn circuit.now) rows.now inputs.now nets.new }
    ensures lanes { (lanes : ℕ) (lane : K → ℕ → Ternary) → LaneLaws K.Algebra.ops lanes lane → is_ok result ≡ true → LanesRight lanes lane (drawn circuit.now) rows.now inputs.now nets.new }
{
    let n = circuit.inputs as usize;
    let gates = circuit.gates.as_slice();
    if nets.len() < n + gates.len() {
        return Err(Refusal::TooShort);
    }
    if rows.len() != circuit.rows() || inputs.len() != n {
        return Err(Refusal::ValueCount);
    }
    nets[0..n].copy_from_slice(inputs);
    put_gates(rows, n, gates, nets);
    Ok(())
}
