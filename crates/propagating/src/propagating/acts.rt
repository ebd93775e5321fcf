// The engine's calls.
ghost use Rattle.std.specs.Prelude.{◌≡◌, ◌≤◌, vec_len, vec_capacity, MatchResult};
ghost use Rattle.refusal.specs.declared.refusal.Refusal.TheVariants.{NoMemory};
ghost use Rattle.engine.specs.View.{new_with};
ghost use Rattle.propagating.specs.Meaning.{view_of};

use crate::propagating::Propagating;
use crate::search::Search;
use clause::literal::Literal;
use clause::values::Values;
use engine::control::Control;
use engine::engine::Engine;
use engine::types::{Answer, Phase, Places};
use refusal::refusal::Refusal;
use std::alloc::Global;
use trail::cells::{Slot, Word};

impl Propagating {
    /// An engine over this memory: as many places as the vectors are long.
    pub fn new(slots: Vec<Slot>, words: Vec<Word>) -> Propagating
        ensures { view_of result ≡ new_with (record { variables = vec_len slots; words = vec_len words }) }
    {
        let places = Places {
            variables: slots.len(),
            words: words.len(),
        };
        Propagating::over(slots, words, places)
    }

    /// An engine with so many places; refused where there is no memory for them.
    pub fn with_places(heap: Global, variables: usize, words: usize) -> Result<Propagating, Refusal>
        ensures { MatchResult result (λ e. view_of e ≡ new_with (record { variables = variables; words = words })) (λ x. x ≡ NoMemory) }
    {
        let places = Places { variables, words };
        let slots = Vec::with_capacity(heap, variables)?;
        let words = Vec::with_capacity(heap, words)?;
        Ok(Propagating::over(slots, words, places))
    }

    /// A new engine over this memory, which has room for these places.
    fn over(slots: Vec<Slot>, words: Vec<Word>, places: Places) -> Propagating
        requires slots { places.variables ≤ vec_capacity slots }
        requires words { places.words ≤ vec_capacity words }
        ensures { view_of result ≡ new_with places }
    {
        Propagating {
            search: Search::new(slots, words),
            control: Control::new(places),
        }
    }

    /// The literals of the clauses looked at since the making: a measurement, which wraps and which no other promise rests on.
    pub fn visits(&self) -> u64
        ensures { result ≡ self.now.search.progress.visits }
    {
        self.search.visits()
    }
}

impl Engine for Propagating {
    ghost view = { view_of };

    fn clear(&mut self) {
        self.search.clear();
        self.control.phase = Phase::Idle;
    }

    fn grow(&mut self, variables: usize) -> Result<(), Refusal> {
        self.control.may_grow(self.search.variables(), variables)?;
        self.search.widen(variables);
        self.control.phase = Phase::Idle;
        Ok(())
    }

    fn add(&mut self, clause: &[Literal]) -> Result<(), Refusal> {
        self.control
            .may_add(self.search.variables(), self.search.words(), clause)?;
        self.search.store(clause);
        self.control.phase = Phase::Idle;
        Ok(())
    }

    fn step(&mut self) -> Result<Answer, Refusal> {
        self.control.count_step()?;
        // A `match` on the phase: each case is a call or two, and as a closure it would be the same calls behind a name.
        let answer = match self.control.phase {
            Phase::Model => Answer::Model,
            Phase::Unsatisfiable => Answer::Unsatisfiable,
            Phase::Searching => self.search.advance(),
            Phase::Idle => self.search.begin(),
        };
        self.control.phase = Phase::from(answer);
        Ok(answer)
    }

    fn value(&self, variable: usize) -> Result<bool, Refusal> {
        self.control.may_tell(self.search.variables(), variable)?;
        Ok(self.search.value(variable))
    }

    fn count(&self) -> u64 {
        self.control.count
    }

    fn places(&self) -> Places {
        self.control.places
    }
}
