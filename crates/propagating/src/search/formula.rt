// The formula of a search: variables and clauses, before its first step.
ghost use Rattle.std.specs.Prelude.{◌≡◌, ℕ, ◌+◌, ◌≤◌, false, [], ◌∷◌, ◌++◌, length, vec_len, vec_capacity};
ghost use Rattle.clause.specs.Logic.{some_outside};
ghost use Rattle.trail.specs.Values.{row_of};
ghost use Rattle.propagating.specs.Parts.{clauses_in, values_in, Keeps, Emptied, Extended};

use super::Search;
use crate::memory::{open_all, store};
use crate::progress::Progress;
use clause::literal::Literal;
use clause::values::Values;
use trail::cells::{Slot, Word};

impl Search {
    /// No variables and no clauses, in this memory.
    pub(crate) fn new(mut slots: Vec<Slot>, mut words: Vec<Word>) -> Search
        ensures variables { vec_len result.slots ≡ 0 }
        ensures words { result.words.items ≡ [] }
        ensures slot_room { vec_capacity result.slots ≡ vec_capacity slots }
        ensures word_room { vec_capacity result.words ≡ vec_capacity words }
        ensures trail { result.progress.trail ≡ 0 }
    {
        slots.clear();
        words.clear();
        Search {
            slots,
            words,
            progress: Progress::default(),
        }
    }

    /// How many variables there are.
    pub(crate) fn variables(&self) -> usize
        ensures { result ≡ vec_len self.now.slots }
    {
        self.slots.len()
    }

    /// How many words the clauses take.
    pub(crate) fn words(&self) -> usize
        ensures { result ≡ vec_len self.now.words }
    {
        self.words.len()
    }

    /// The literals of the clauses looked at since the making.
    pub(crate) fn visits(&self) -> u64
        ensures { result ≡ self.now.progress.visits }
    {
        self.progress.visits
    }

    /// Takes every variable and every clause away.
    pub(crate) fn clear(&mut self)
        ensures variables { vec_len self.new.slots ≡ 0 }
        ensures words { self.new.words.items ≡ [] }
        ensures emptied { Emptied self.old self.new }
    {
        self.slots.clear();
        self.words.clear();
        self.progress.restart();
    }

    /// Takes every literal off the trail, at the cost of a pass over the slots where there is one.
    pub(crate) fn restart(&mut self)
        ensures keeps { Keeps self.old self.new }
        ensures trail { self.new.progress.trail ≡ 0 }
    {
        if self.progress.trail > 0 {
            open_all(&mut self.slots);
        }
        self.progress.restart();
    }

    /// So many variables more, all open; the trail stays.
    pub(crate) fn widen(&mut self, variables: usize)
        requires { vec_len self.old.slots + variables ≤ vec_capacity self.old.slots }
        ensures variables { vec_len self.new.slots ≡ vec_len self.old.slots + variables }
        ensures words { self.new.words ≡ self.old.words }
        ensures extended { Extended self.old self.new }
    {
        let all = self.slots.len() + variables;
        self.slots.resize(all, Slot::empty()).unwrap();
    }

    /// Puts a clause last; the trail stays.
    pub(crate) fn store(&mut self, clause: &[Literal])
        requires room { vec_len self.old.words + (length clause.now + 1) ≤ vec_capacity self.old.words }
        requires inside { some_outside (vec_len self.old.slots) clause.now ≡ false }
        ensures clauses { clauses_in self.new ≡ clauses_in self.old ++ (clause.now ∷ []) }
        ensures words { vec_len self.new.words ≡ vec_len self.old.words + (length clause.now + 1) }
        ensures variables { vec_len self.new.slots ≡ vec_len self.old.slots }
        ensures extended { Extended self.old self.new }
    {
        store(&mut self.slots, &mut self.words, clause);
    }
}

/// The values so far, where open variables are false.
impl Values for Search {
    ghost row = { λ s. row_of (values_in s) };

    fn value(&self, variable: usize) -> bool {
        // By a `match`: with `and_then` the proof did not close.
        match self.slots.get(variable.saturating_sub(1)) {
            Some(slot) => slot.value.unwrap_or(false),
            None => false,
        }
    }
}
