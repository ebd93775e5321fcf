// The input words at which target and specification differ, one after another.
ghost use Rattle.std.specs.Iterator.{YieldsFirst, item_count};
ghost use Rattle.circuit.specs.View.{drawn};
ghost use Rattle.matching.specs.Differing.{words_left, Listed};

use crate::comparison::Comparison;
use circuit::pair::Pair;
use refusal::refusal::Refusal;

/// The input words at which the outputs differ, lowest first.
#[derive(Drop)]
pub struct DifferingWords<'a> {
    comparison: Comparison<'a>,
    from: u64,
}

impl<'a> Iterator for DifferingWords<'a> {
    type Item = u64;

    ghost next_gives = { YieldsFirst words_left };

    ghost remaining = { item_count words_left };

    fn next(&mut self) -> Option<u64> {
        let word = self.comparison.lowest(self.from)?;
        self.from = word + 1;
        Some(word)
    }
}

/// The input words at which the outputs differ, lowest first.
/// Circuits of unlike numbers of inputs or outputs are refused, and then a setting of too many bits.
pub fn differences(pair: &Pair, setting: u64) -> Result<DifferingWords<'_>, Refusal>
    ensures { Listed (drawn pair.now.target) (drawn pair.now.specification) setting result }
{
    let comparison = Comparison::checked(pair, setting)?;
    Ok(DifferingWords {
        comparison,
        from: 0,
    })
}
