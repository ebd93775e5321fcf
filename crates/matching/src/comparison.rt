// A pair under a setting: which lanes and which input words differ.
ghost use Rattle.std.specs.Prelude.{◌≡◌, ℕ, ◌+◌, ◌*◌, ◌/◌, ◌^◌, ◌<◌, ◌≤◌, max, true, false, not, map, length, MatchResult, Decides};
ghost use Rattle.circuit.specs.Gates.{Driven};
ghost use Rattle.circuit.specs.View.{drawn};
ghost use Rattle.meaning.specs.Meaning.{bit};
ghost use Rattle.matching.specs.Answers.{alike, try_refusal, Lowest};
ghost use Rattle.matching.specs.Blocks.{net_bit, Compared, LowestInBlock};
ghost use Rattle.matching.specs.Pairs.{of_pair};

use crate::bits::check;
use crate::lanes::{MOST_NETS, net_lanes, run};
use circuit::pair::Pair;
use refusal::refusal::Refusal;
use value::kind::Algebra;
use value::word::Word;

/// The lanes in which some output `a` of the nets `t` is not the like output `b` of the nets `s`.
fn unequal(a: &[u8], t: &[Word], b: &[u8], s: &[Word]) -> u64
    requires long { length a.now ≡ length b.now }
    requires left { Driven (length t.now) a.now }
    requires right { Driven (length s.now) b.now }
    ensures { (j : ℕ) → Decides (not (bit result j)) (map (net_bit t.now j) a.now ≡ map (net_bit s.now j) b.now) }
{
    // A fold would be no plainer: its closure would be this loop's body.
    let mut lanes = 0;
    for (a, b) in a.iter().zip(b) {
        lanes |= net_lanes(t, *a) ^ net_lanes(s, *b);
    }
    lanes
}

/// Whether the circuits have as many inputs and outputs.
fn alike(pair: &Pair) -> bool
    ensures { result ≡ alike (drawn pair.now.target) (drawn pair.now.specification) }
{
    pair.target.inputs == pair.specification.inputs
        && pair.target.outputs.len() == pair.specification.outputs.len()
}

/// A pair of circuits of as many inputs and outputs, and a setting of the target.
#[derive(Drop)]
pub(crate) struct Comparison<'a> {
    pair: &'a Pair,
    setting: u64,
    ghost like: { length (drawn pair.now.target).outputs ≡ length (drawn pair.now.specification).outputs },
}

impl<'a> Comparison<'a> {
    /// Circuits of unlike numbers of inputs or outputs are refused.
    pub(crate) fn new(pair: &'a Pair, setting: u64) -> Result<Comparison<'a>, Refusal>
        ensures { let t = drawn pair.now.target in
            let s = drawn pair.now.specification in
            MatchResult result (λ c. (alike t s ≡ true) × (c.pair.now ≡ pair.now) × (c.setting ≡ setting)) (λ e. (alike t s ≡ false) × (e ≡ Refusal.Unlike)) }
    {
        if !alike(pair) {
            return Err(Refusal::Unlike);
        }
        Ok(Comparison { pair, setting })
    }

    /// Circuits of unlike numbers of inputs or outputs are refused, and then a setting of too many bits.
    pub(crate) fn checked(pair: &'a Pair, setting: u64) -> Result<Comparison<'a>, Refusal>
        ensures { let t = drawn pair.now.target in
            let s = drawn pair.now.specification in
            MatchResult result (λ c. (try_refusal t s setting ≡ None) × (c.pair.now ≡ pair.now) × (c.setting ≡ setting)) (λ e. try_refusal t s setting ≡ Some e) }
    {
        let comparison = Comparison::new(pair, setting)?;
        check(setting, pair.target.rows(), Refusal::SettingRange)?;
        Ok(comparison)
    }

    /// The lanes of the block at whose input words the outputs differ.
    pub(crate) fn differing(&self, block: u64) -> u64
        ensures { of_pair Compared self.now.pair.now self.now.setting block result }
    {
        let mut target = [Word::falsity(); MOST_NETS];
        run(&self.pair.target, self.setting, block, &mut target);
        let mut specification = [Word::falsity(); MOST_NETS];
        run(&self.pair.specification, 0, block, &mut specification);
        unequal(
            self.pair.target.outputs.as_slice(),
            &target,
            self.pair.specification.outputs.as_slice(),
            &specification,
        )
    }

    /// The lowest input word from `from` to the end of its block at which the outputs differ.
    fn lowest_in_block(&self, from: u64) -> Option<u64>
        requires { from < 2 ^ 16 }
        ensures { of_pair LowestInBlock self.now.pair.now self.now.setting from result }
    {
        let lanes = self.differing(from / 64) >> (from % 64);
        (lanes != 0).then(|| from + u64::from(lanes.trailing_zeros()))
    }

    /// How many input words there are.
    fn words(&self) -> u64
        ensures all { result ≡ 2 ^ self.now.pair.now.target.inputs }
        ensures few { result ≤ 2 ^ 16 }
    {
        1 << self.pair.target.inputs
    }

    /// The lowest input word from `from` on at which the outputs differ.
    pub(crate) fn lowest(&self, from: u64) -> Option<u64>
        ensures { of_pair Lowest self.now.pair.now self.now.setting from result }
    {
        let end = self.words();
        if from >= end {
            return None;
        }
        (from / 64..end.div_ceil(64))
            .find_map(
                |block| -> Option<u64>
                    requires { max from (64 * block) < 2 ^ 16 }
                    ensures { of_pair LowestInBlock self.entry.now.pair.now self.entry.now.setting (max from (64 * block)) result }
                { self.lowest_in_block(from.max(64 * block)) },
            )
            .filter(|word| *word < end)
    }
}
