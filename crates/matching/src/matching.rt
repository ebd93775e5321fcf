// Target against specification: whether they match at an input word, and the first input word at which they do not.
ghost use Rattle.circuit.specs.View.{drawn};
ghost use Rattle.matching.specs.Answers.{Matched, Tried};

use crate::bits::{bit_of, check};
use crate::comparison::Comparison;
use circuit::pair::Pair;
use refusal::refusal::Refusal;

/// Whether target, under the setting, and specification give equal outputs at the input word.
/// Circuits of unlike numbers of inputs or outputs are refused, then an input word and then a setting of too many bits.
pub fn matches(pair: &Pair, setting: u64, word: u64) -> Result<bool, Refusal>
    ensures { Matched (drawn pair.now.target) (drawn pair.now.specification) setting word result }
{
    let comparison = Comparison::new(pair, setting)?;
    check(word, usize::from(pair.target.inputs), Refusal::WordRange)?;
    check(setting, pair.target.rows(), Refusal::SettingRange)?;
    Ok(!bit_of(comparison.differing(word / 64), word % 64))
}

/// The lowest input word from `from` on at which the outputs differ, or none.
/// Circuits of unlike numbers of inputs or outputs are refused, and then a setting of too many bits.
pub fn next_difference(pair: &Pair, setting: u64, from: u64) -> Result<Option<u64>, Refusal>
    ensures { Tried (drawn pair.now.target) (drawn pair.now.specification) setting from result }
{
    Ok(Comparison::checked(pair, setting)?.lowest(from))
}

/// The lowest input word at which the outputs differ, or none.
pub fn first_difference(pair: &Pair, setting: u64) -> Result<Option<u64>, Refusal>
    ensures { Tried (drawn pair.now.target) (drawn pair.now.specification) setting 0 result }
{
    next_difference(pair, setting, 0)
}
