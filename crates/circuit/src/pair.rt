// A target, whose tables are to be written, and the specification that it is to meet.
ghost use Rattle.std.specs.Prelude.{◌≡◌};
ghost use Rattle.circuit.specs.Gates.{total_rows};

use crate::circuit::Circuit;

/// The two circuits of a job. The specification has no table, so no setting rows.
#[derive(Drop)]
pub struct Pair {
    pub target: Circuit,
    pub specification: Circuit,
    ghost plain: { total_rows specification.gates.items ≡ 0 },
}
