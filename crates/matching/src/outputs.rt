// A circuit's outputs at one input word.
ghost use Rattle.std.specs.Prelude.{◌≡◌, ◌<◌, ◌≤◌, map, length};
ghost use Rattle.circuit.specs.Gates.{Driven};
ghost use Rattle.circuit.specs.View.{drawn};
ghost use Rattle.matching.specs.Answers.{Numbered, as_number};
ghost use Rattle.matching.specs.Blocks.{net_bit};

use crate::bits::{bit_of, check};
use crate::lanes::{MOST_NETS, net_lanes, run};
use circuit::circuit::Circuit;
use refusal::refusal::Refusal;
use value::kind::Algebra;
use value::word::Word;

/// Lane `j` of each of the outputs, as one number, the first output the lowest bit.
fn gather(outputs: &[u8], nets: &[Word], j: u64) -> u64
    requires driven { Driven (length nets.now) outputs.now }
    requires few { length outputs.now ≤ 16 }
    requires lane { j < 64 }
    ensures { result ≡ as_number (map (net_bit nets.now j) outputs.now) }
{
    // A map and a sum would be no plainer: the closure would be this loop's body.
    let mut number = 0;
    for (i, a) in outputs.iter().enumerate() {
        number += u64::from(bit_of(net_lanes(nets, *a), j)) << i;
    }
    number
}

/// The circuit's outputs under the setting at the input word, as one number, output 1 the lowest bit.
/// An input word of more bits than there are inputs is refused, and then a setting of more bits than there are setting rows.
pub fn outputs(circuit: &Circuit, setting: u64, word: u64) -> Result<u64, Refusal>
    ensures { Numbered (drawn circuit.now) setting word result }
{
    check(word, usize::from(circuit.inputs), Refusal::WordRange)?;
    check(setting, circuit.rows(), Refusal::SettingRange)?;
    let mut nets = [Word::falsity(); MOST_NETS];
    run(circuit, setting, word / 64, &mut nets);
    Ok(gather(circuit.outputs.as_slice(), &nets, word % 64))
}
