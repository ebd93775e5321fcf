// The rows of a sheet by what they say: its header, a gate, an output.
ghost use Rattle.std.specs.Prelude.{◌≡◌, ℕ, List, IsSomeAnd, ◌+◌, ◌≤◌, true, false, Some, MatchResult};
ghost use Rattle.refusal.specs.Faults.{fault_at};
ghost use Rattle.refusal.specs.declared.refusal.Refusal.TheVariants.{Letter};
ghost use Rattle.circuit.specs.Gates.{own_rows};
ghost use Rattle.sheet_format.specs.Shapes.{header_shape, gate_shape, output_shape};
ghost use Rattle.sheet_format.specs.Decoding.{number, fields_of, kind_named, gate_in, gate_from};
ghost use Rattle.sheet_format.specs.FirstFault.{header_fault, gate_fault, output_fault, names_gate};
ghost use Rattle.sheet.specs.Judged.{Judged};
ghost use Rattle.sheet.specs.Parts.{GateFields, Headed};

use crate::rows::{Fields, read_fields, read_letter, read_lettered};
use circuit::gate::{Gate, Inputs, Kind};
use layout::row::Row;
use layout::shape::{Bounds, Shape};
use refusal::fault::Fault;
use refusal::refusal::Refusal;
use refusal::role::Role;

/// What a sheet's first row says.
#[derive(Clone, Copy, Debug, PartialEq, Eq)]
pub struct Header {
    pub inputs: u8,
    pub gates: usize,
    pub outputs: usize,
}

/// The bounds of a field that is blank: no number is within them.
const BLANK: Bounds = Bounds { low: 1, high: 0 };

fn shape_of_header() -> Shape
    ensures { result ≡ header_shape }
{
    let inputs = Bounds { low: 1, high: 16 };
    let gates = Bounds { low: 1, high: 200 };
    let outputs = Bounds { low: 1, high: 16 };
    Shape {
        needed: 3,
        allowed: 3,
        bounds: [inputs, gates, outputs, BLANK, BLANK, BLANK],
    }
}

fn shape_of_gate(own: u32, kind: Kind) -> Shape
    requires { 1 ≤ own }
    ensures { result ≡ gate_shape own kind }
{
    let itself = Bounds {
        low: own,
        high: own,
    };
    let below = Bounds {
        low: 1,
        high: own - 1,
    };
    Shape {
        needed: 1 + kind.fewest_inputs(),
        allowed: 1 + kind.most_inputs(),
        bounds: [itself, below, below, below, below, below],
    }
}

fn shape_of_output(nets: u32) -> Shape
    ensures { result ≡ output_shape nets }
{
    let net = Bounds { low: 1, high: nets };
    Shape {
        needed: 1,
        allowed: 1,
        bounds: [net, BLANK, BLANK, BLANK, BLANK, BLANK],
    }
}

/// The kind of gate that a row's letter names, where a gate of that kind may stand in such a sheet.
fn read_kind(letter: u8, role: Role) -> Result<Kind, Fault>
    ensures { MatchResult result (λ k. (names_gate role letter ≡ true) × (k ≡ kind_named letter)) (λ f. (names_gate role letter ≡ false) × (f ≡ fault_at Letter 1)) }
{
    match Kind::try_from(letter) {
        Ok(Kind::Table) if role == Role::Specification => Err(Fault::at(Refusal::Letter, 1)),
        Ok(kind) => Ok(kind),
        Err(refusal) => Err(Fault::at(refusal, 1)),
    }
}

/// The number of a filled field that may hold no greater one than 255.
fn number_in(field: Option<u32>) -> u8
    requires { IsSomeAnd field (λ n. n ≤ 255) }
    ensures { field ≡ Some result }
{
    field.unwrap() as u8
}

/// The header of a sheet.
pub(crate) fn read_header(row: &Row) -> Result<Header, Fault>
    ensures { Judged (header_fault row.now) result (λ h. Headed row.now h) }
{
    let fields = read_lettered(row, b'H', &shape_of_header())?;
    let [inputs, gates, outputs, ..] = fields;
    Ok(Header {
        inputs: number_in(inputs),
        gates: usize::from(number_in(gates)),
        outputs: usize::from(number_in(outputs)),
    })
}

/// The net of an output, one of the first `nets`.
pub(crate) fn read_output(row: &Row, nets: u32) -> Result<u8, Fault>
    requires { nets ≤ 216 }
    ensures { Judged (output_fault nets row.now) result (λ net. net ≡ number 0 (fields_of row.now)) }
{
    let [net, ..] = read_lettered(row, b'Q', &shape_of_output(nets))?;
    Ok(number_in(net))
}

/// The gate of a kind whose row has these fields.
fn gate_of(kind: Kind, fields: Fields) -> Gate
    requires { (k : ℕ) × (ns : List ℕ) × GateFields kind k ns fields }
    ensures { (k : ℕ) (ns : List ℕ) → GateFields kind k ns fields → result ≡ gate_from kind k ns }
{
    let [_, a, b, c, d, _] = fields;
    match kind {
        Kind::Unary(unary) => Gate::Unary(unary, number_in(a)),
        Kind::Binary(binary) => Gate::Binary(binary, number_in(a), number_in(b)),
        Kind::Table => Gate::Table(match (b, c, d) {
            (None, _, _) => Inputs::One(number_in(a)),
            (_, None, _) => Inputs::Two(number_in(a), number_in(b)),
            (_, _, None) => Inputs::Three(number_in(a), number_in(b), number_in(c)),
            _ => Inputs::Four(number_in(a), number_in(b), number_in(c), number_in(d)),
        }),
    }
}

/// The gate that drives net `own`, where the tables above have `before` rows.
pub(crate) fn read_gate(row: &Row, role: Role, own: u32, before: usize) -> Result<Gate, Fault>
    requires { (1 ≤ own) × ((own ≤ 216) × (before ≤ 64)) }
    ensures { Judged (gate_fault role own before row.now) result (λ g. (g ≡ gate_in row.now) × (before + own_rows g ≤ 64)) }
{
    let letter = read_letter(row)?;
    let kind = read_kind(letter, role)?;
    let fields = read_fields(row, &shape_of_gate(own, kind))?;
    let gate = gate_of(kind, fields);
    if before + gate.rows() > 64 {
        return Err(Fault::at(Refusal::TableBits, 1));
    }
    Ok(gate)
}
