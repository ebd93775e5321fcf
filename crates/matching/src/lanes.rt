// Sixty-four input words at a time: lane j of a block stands for the input word 64 * block + j.
ghost use Rattle.std.specs.Prelude.{◌≡◌, ℕ, ◌<◌, ◌≤◌, length};
ghost use Rattle.circuit.specs.View.{drawn};
ghost use Rattle.meaning.specs.Meaning.{bit};
ghost use Rattle.meaning.specs.Nets.{at};
ghost use Rattle.matching.specs.Blocks.{lane_word, HoldNets, no_lanes};

use crate::bits::bit_of;
use circuit::circuit::Circuit;
use value::evaluate::evaluate;
use value::kind::Algebra;
use value::word::Word;

/// The most setting rows of a circuit.
const MOST_ROWS: usize = 64;

/// The most inputs of a circuit.
const MOST_INPUTS: usize = 16;

/// The most nets of a circuit.
pub(crate) const MOST_NETS: usize = 216;

/// Bit i of the numbers 0 to 63, for each i below 6.
const COUNTING: [u64; 6] = [
    0xAAAA_AAAA_AAAA_AAAA,
    0xCCCC_CCCC_CCCC_CCCC,
    0xF0F0_F0F0_F0F0_F0F0,
    0xFF00_FF00_FF00_FF00,
    0xFFFF_0000_FFFF_0000,
    0xFFFF_FFFF_0000_0000,
];

/// Bit `i` of the input words of a block.
fn input_lanes(i: usize, block: u64) -> Word
    requires { i < 16 }
    ensures { (j : ℕ) → j < 64 → bit result.bits j ≡ bit (lane_word block j) i }
{
    if i < 6 {
        Word { bits: COUNTING[i] }
    } else {
        Word::from(bit_of(block, i as u64 - 6))
    }
}

/// Writes the values of all nets under the setting at every input word of the block.
// A call allocates nothing: the arrays are as long as any circuit needs, and `evaluate` takes the front that is this circuit's.
// Nor is an array copied: the caller's is filled in place, and so are the rows and inputs, which `array::from_fn` would copy.
pub(crate) fn run(circuit: &Circuit, setting: u64, block: u64, nets: &mut [Word; MOST_NETS])
    ensures { HoldNets (drawn circuit.now) setting block nets.new }
{
    let mut rows = [Word::falsity(); MOST_ROWS];
    for (r, row) in rows.iter_mut().enumerate() {
        *row = Word::from(bit_of(setting, r as u64));
    }
    let mut inputs = [Word::falsity(); MOST_INPUTS];
    for (i, input) in inputs.iter_mut().enumerate() {
        *input = input_lanes(i, block);
    }
    let m = circuit.rows();
    let n = usize::from(circuit.inputs);
    let _ = evaluate(circuit, &rows[..m], &inputs[..n], nets);
}

/// The lanes of net `a`.
// The look at a net stands in `value` too, where it asks that the net be there, and so is no public call.
pub(crate) fn net_lanes(nets: &[Word], a: u8) -> u64
    requires { (1 ≤ a) × (a ≤ length nets.now) }
    ensures { result ≡ (at no_lanes nets.now a).bits }
{
    nets[a as usize - 1].bits
}
