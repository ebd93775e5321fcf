// What every engine keeps beside its formula, and the tests that its calls make of that before anything changes.
// Each test answers the first refusal that applies.
ghost use Rattle.std.specs.Prelude.{◌≡◌, ◌+◌, nat_lt};
ghost use Rattle.engine.specs.Calls.{Tested, growth_refusal, addition_refusal, question_refusal, count_refusal};
ghost use Rattle.engine.specs.Counted.{Counted};
ghost use Rattle.engine.specs.Phases.{in_search, at_model};
ghost use Rattle.engine.specs.declared.types.Phase.TheVariants.{Idle};

use crate::search::STEP_LIMIT;
use crate::types::{Phase, Places};
use clause::clause::{outside, some_outside};
use clause::literal::Literal;
use refusal::refusal::Refusal;

/// An engine's phase, its count of steps and its places.
#[derive(Clone, Copy, Debug, PartialEq, Eq)]
pub struct Control {
    pub phase: Phase,
    pub count: u64,
    pub places: Places,
}

/// Whether so many, and `more`, are more than the places.
fn exceeds(places: usize, taken: usize, more: usize) -> bool
    ensures { result ≡ nat_lt places (taken + more) }
{
    taken.checked_add(more).is_none_or(|all| places < all)
}

impl Control {
    /// That of a new engine with these places.
    pub fn new(places: Places) -> Control
        ensures { result ≡ record { phase = Idle; count = 0; places = places } }
    {
        Control {
            phase: Phase::Idle,
            count: 0,
            places,
        }
    }

    /// Whether `more` variables may join so many.
    pub fn may_grow(&self, variables: usize, more: usize) -> Result<(), Refusal>
        ensures { Tested (growth_refusal (in_search self.now.phase) self.now.places variables more) result }
    {
        if self.phase == Phase::Searching {
            return Err(Refusal::Searching);
        }
        if exceeds(self.places.variables, variables, more) {
            return Err(Refusal::PlacesLacking);
        }
        Ok(())
    }

    /// Whether the clause may join clauses over so many variables that take so many words.
    pub fn may_add(&self, variables: usize, words: usize, clause: &[Literal]) -> Result<(), Refusal>
        ensures { Tested (addition_refusal (in_search self.now.phase) self.now.places variables words clause.now) result }
    {
        if self.phase == Phase::Searching {
            return Err(Refusal::Searching);
        }
        if some_outside(clause, variables) {
            return Err(Refusal::VariableRange);
        }
        if exceeds(self.places.words, words, clause.len() + 1) {
            return Err(Refusal::PlacesLacking);
        }
        Ok(())
    }

    /// Whether the model's value of the variable may be told, where there are so many variables.
    pub fn may_tell(&self, variables: usize, variable: usize) -> Result<(), Refusal>
        ensures { Tested (question_refusal (at_model self.now.phase) variables variable) result }
    {
        if outside(variables, variable) {
            return Err(Refusal::VariableRange);
        }
        if self.phase != Phase::Model {
            return Err(Refusal::NoModel);
        }
        Ok(())
    }

    /// Counts a step; refused where the count would pass its limit, which is then as it was.
    pub fn count_step(&mut self) -> Result<(), Refusal>
        ensures { Counted self.old result self.new }
    {
        if self.count >= STEP_LIMIT {
            return Err(Refusal::StepsSpent);
        }
        self.count += 1;
        Ok(())
    }
}
