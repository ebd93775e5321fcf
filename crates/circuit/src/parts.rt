// What a circuit says of itself.
ghost use Rattle.std.specs.Prelude.{◌≡◌, ◌+◌, ◌≤◌};
ghost use Rattle.circuit.specs.Gates.{total_rows, first_row, count_kind};
ghost use Rattle.circuit.specs.View.{drawn};

use crate::circuit::Circuit;
use crate::gate::Kind;

impl Circuit {
    /// The number of setting rows: those of all tables together.
    #[tactic(auto, using(crate::proofs::Rows::rows_sum))]
    pub fn rows(&self) -> usize
        ensures { result ≡ total_rows (drawn self.now).gates }
    {
        self.gates.iter().map(|gate| gate.rows()).sum()
    }

    /// The setting row that is the first of gate i, counted from 0; past the last gate, the number of setting rows.
    #[tactic(auto, using(crate::proofs::Rows::rows_sum, crate::proofs::Rows::sum_front))]
    pub fn first_row(&self, i: usize) -> usize
        ensures { result ≡ first_row (drawn self.now).gates i }
    {
        self.gates.iter().take(i).map(|gate| gate.rows()).sum()
    }

    /// How many gates are of that kind.
    pub fn gates_of(&self, kind: Kind) -> usize
        ensures { result ≡ count_kind kind (drawn self.now).gates }
    {
        self.gates.iter().filter(|gate| gate.kind() == kind).count()
    }
}
