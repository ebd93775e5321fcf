// How many bytes a circuit's rows take.
ghost use Rattle.std.specs.Prelude.{◌≡◌, ◌≤◌, length};
ghost use Rattle.circuit.specs.View.{drawn};
ghost use Rattle.sheet_format.specs.Rows.{rows, pair_rows};

use circuit::circuit::Circuit;
use circuit::pair::Pair;

/// The length of a circuit's rows: 32 bytes for the header, each gate and each output.
pub fn sheet_length(circuit: &Circuit) -> usize
    ensures value { result ≡ length (rows (drawn circuit.now)) }
    ensures bound { result ≤ 6944 }
{
    32 * (1 + circuit.gates.len() + circuit.outputs.len())
}

/// The length of a pair's rows.
pub fn pair_length(pair: &Pair) -> usize
    ensures { result ≡ length (pair_rows (drawn pair.now.target) (drawn pair.now.specification)) }
{
    sheet_length(&pair.target) + sheet_length(&pair.specification)
}
