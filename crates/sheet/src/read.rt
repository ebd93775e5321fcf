// Sheets and pairs, read from their bytes.
ghost use Rattle.std.specs.Prelude.{◌≡◌, ◌+◌, ◌%◌, ◌<◌, ◌≤◌, true, false, length, map, MatchResult};
ghost use Rattle.refusal.specs.Faults.{fault_at};
ghost use Rattle.refusal.specs.declared.refusal.Refusal.TheVariants.{Length, RowCount};
ghost use Rattle.circuit.specs.View.{drawn};
ghost use Rattle.sheet_format.specs.Decoding.{gate_in, sheet_in};
ghost use Rattle.sheet_format.specs.FirstFault.{rows_counted, sheet_fault};
ghost use Rattle.sheet.specs.Answers.{SheetRead, PairRead, PairLoaded};
ghost use Rattle.sheet.specs.Judged.{Judged};
ghost use Rattle.sheet.specs.Parts.{IsRows, gates_fault_in, outputs_fault_in, net_in};

use crate::length::sheet_length;
use crate::parts::{Header, read_gate, read_header, read_output};
use crate::room::{PairRoom, Room, Space};
use circuit::circuit::Circuit;
use circuit::gate::Gate;
use circuit::pair::Pair;
use layout::row::Row;
use refusal::fault::Fault;
use refusal::refusal::Refusal;
use refusal::role::Role;
use std::alloc::Global;

/// The gates that these rows say, in order.
fn read_gates(
    rows: &[Row],
    role: Role,
    inputs: u8,
    space: Space<Gate, 200>,
) -> Result<Vec<Gate>, Fault>
    requires few { (inputs ≤ 16) × (length rows.now ≤ 200) }
    ensures { Judged (gates_fault_in role inputs rows.now) result (λ v. v.items ≡ map gate_in rows.now) }
{
    let mut gates = space.items;
    let mut used = 0;
    for (i, row) in rows.iter().enumerate() {
        let own = u32::from(inputs) + i as u32 + 1;
        let gate = read_gate(row, role, own, used).map_err(|fault| fault.in_row(i as u16 + 2))?;
        used += gate.rows();
        gates.push_reserved(gate);
    }
    Ok(gates)
}

/// The outputs that these rows say, in order, below the rows of the header's gates.
// No one function with `read_gates`: a gate hands the rows used so far to the next, so a closure that reads a row would
// have a state, and a bound on it would be asked at each call; what the two loops share is a `?` and a push.
fn read_outputs(rows: &[Row], header: Header, space: Space<u8, 16>) -> Result<Vec<u8>, Fault>
    requires few { (header.inputs ≤ 16) × (header.gates ≤ 200) × (length rows.now ≤ 16) }
    ensures { Judged (outputs_fault_in header.gates (header.inputs + header.gates) rows.now) result (λ v. v.items ≡ map net_in rows.now) }
{
    let mut outputs = space.items;
    let nets = u32::from(header.inputs) + header.gates as u32;
    let above = header.gates as u16 + 2;
    for (j, row) in rows.iter().enumerate() {
        let net = read_output(row, nets).map_err(|fault| fault.in_row(above + j as u16))?;
        outputs.push_reserved(net);
    }
    Ok(outputs)
}

/// The rows of a sheet: one at least, and whole rows.
fn whole_rows(bytes: &[u8]) -> Result<&[Row], Fault>
    ensures { MatchResult result (λ rows. (0 < length rows.now) × IsRows bytes.now rows.now) (λ f. ((0 < length bytes.now) × (length bytes.now % 32 ≡ 0) → ⊥) × (f ≡ fault_at Length 0)) }
{
    match bytes.as_chunks::<32>() {
        (rows, []) if !rows.is_empty() => Ok(rows),
        _ => Err(Fault::at(Refusal::Length, 0)),
    }
}

/// As many rows as the header says: a target may have rows after them.
fn check_count(role: Role, wanted: usize, given: usize) -> Result<(), Fault>
    ensures { MatchResult result (λ _. rows_counted role wanted given ≡ true) (λ f. (rows_counted role wanted given ≡ false) × (f ≡ fault_at RowCount 1)) }
{
    let counted = match role {
        Role::Target => wanted <= given,
        Role::Alone | Role::Specification => wanted == given,
    };
    if counted {
        Ok(())
    } else {
        Err(Fault::at(Refusal::RowCount, 1))
    }
}

/// The circuit of a sheet in that role. The bytes alone decide what is answered.
fn read_part(bytes: &[u8], role: Role, room: Room) -> Result<Circuit, Fault>
    ensures { Judged (sheet_fault role bytes.now) result (λ c. drawn c ≡ sheet_in bytes.now) }
{
    let rows = whole_rows(bytes)?;
    let header = read_header(&rows[0]).map_err(|fault| fault.in_row(1))?;
    let below_gates = 1 + header.gates;
    let wanted = below_gates + header.outputs;
    check_count(role, wanted, rows.len()).map_err(|fault| fault.in_row(1))?;
    let Room { gates, outputs } = room;
    let gates = read_gates(&rows[1..below_gates], role, header.inputs, gates)?;
    let outputs = read_outputs(&rows[below_gates..wanted], header, outputs)?;
    Ok(Circuit {
        inputs: header.inputs,
        gates,
        outputs,
    })
}

/// The circuit of a sheet that stands alone. Its faults are in sheet 0.
pub fn read_sheet(room: Room, bytes: &[u8]) -> Result<Circuit, Fault>
    ensures { SheetRead bytes.now result }
{
    read_part(bytes, Role::Alone, room)
}

/// The target and the specification of a pair: the second sheet starts right after the target's last row.
pub fn read_pair(room: PairRoom, bytes: &[u8]) -> Result<Pair, Fault>
    ensures { PairRead bytes.now result }
{
    let PairRoom {
        target,
        specification,
    } = room;
    let target = read_part(bytes, Role::Target, target).map_err(|fault| fault.in_sheet(u8::from(
        Role::Target,
    )))?;
    let start = sheet_length(&target);
    let specification = read_part(&bytes[start..], Role::Specification, specification).map_err(
        |fault| fault.in_sheet(u8::from(Role::Specification)),
    )?;
    Ok(Pair {
        target,
        specification,
    })
}

/// The same in memory of its own, the want of which is a fault of no sheet.
pub fn load_pair(heap: Global, bytes: &[u8]) -> Result<Pair, Fault>
    ensures { PairLoaded bytes.now result }
{
    let room = PairRoom::new(heap)?;
    read_pair(room, bytes)
}
