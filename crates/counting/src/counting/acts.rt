// The counting engine's makers and calls.
// `begin` and `attempt`, at the end, are what a step does before it has answered.
ghost use Rattle.std.specs.Prelude.{◌≡◌, ◌+◌, ◌≤◌, false, [], ◌∷◌, ◌++◌, length, vec_len, MatchResult};
ghost use Rattle.clause.specs.Logic.{all_hold, some_outside};
ghost use Rattle.engine.specs.View.{idle_with, new_with};
ghost use Rattle.refusal.specs.declared.refusal.Refusal.TheVariants.{NoMemory};
ghost use Rattle.counting.specs.Meaning.{row_of, view_of, view_in, Begun};
ghost use Rattle.engine.specs.Calls.{Tries};
ghost use Rattle.engine.specs.Phases.{phase_after};
ghost use Rattle.engine.specs.declared.types.Phase.TheVariants.{Idle, Searching};

use crate::counting::Counting;
use crate::rows::count_up;
use clause::literal::Literal;
use clause::memory::head;
use clause::values::Values;
use engine::control::Control;
use engine::engine::Engine;
use engine::types::{Answer, Phase, Places};
use refusal::refusal::Refusal;
use std::alloc::Global;

impl Counting {
    /// An engine over this memory: as many places as the vectors are long, no variables and no clauses.
    pub fn new(row: Vec<bool>, mut words: Vec<Literal>) -> Counting
        ensures { view_of result ≡ new_with (record { variables = vec_len row; words = vec_len words }) }
    {
        let places = Places {
            variables: row.len(),
            words: words.len(),
        };
        words.clear();
        Counting {
            row,
            words,
            variables: 0,
            control: Control::new(places),
        }
    }

    /// An engine with so many places; refused only for want of memory.
    pub fn with_places(heap: Global, variables: usize, words: usize) -> Result<Counting, Refusal>
        ensures { MatchResult result (λ c. view_of c ≡ new_with (record { variables = variables; words = words })) (λ x. x ≡ NoMemory) }
    {
        Ok(Counting {
            row: Vec::with_capacity(heap, variables)?,
            words: Vec::with_capacity(heap, words)?,
            variables: 0,
            control: Control::new(Places { variables, words }),
        })
    }
}

impl Engine for Counting {
    ghost view = { view_of };

    fn clear(&mut self) {
        self.control.phase = Phase::Idle;
        self.words.clear();
        self.variables = 0;
    }

    fn grow(&mut self, variables: usize) -> Result<(), Refusal> {
        self.control.may_grow(self.variables, variables)?;
        self.control.phase = Phase::Idle;
        self.variables += variables;
        Ok(())
    }

    fn add(&mut self, clause: &[Literal]) -> Result<(), Refusal> {
        self.control
            .may_add(self.variables, self.words.len(), clause)?;
        self.control.phase = Phase::Idle;
        // The capacity holds the places, so neither this nor `begin` asks for memory.
        self.words.push_reserved(head(clause.len()));
        self.words.extend_from_slice(clause).unwrap();
        Ok(())
    }

    /// Cost: one row of values is tried, with at most one look at each literal of the formula.
    fn step(&mut self) -> Result<Answer, Refusal> {
        self.control.count_step()?;
        // A `match` on the phase: each case is a call or two, and as a closure it would be the same calls behind a name.
        let answer = match self.control.phase {
            Phase::Idle => {
                self.begin();
                self.attempt()
            }
            Phase::Searching => self.attempt(),
            Phase::Model => Answer::Model,
            Phase::Unsatisfiable => Answer::Unsatisfiable,
        };
        self.control.phase = Phase::from(answer);
        Ok(answer)
    }

    fn value(&self, variable: usize) -> Result<bool, Refusal> {
        self.control.may_tell(self.variables, variable)?;
        Ok(self.row.value(variable))
    }

    fn count(&self) -> u64 {
        self.control.count
    }

    fn places(&self) -> Places {
        self.control.places
    }
}

impl Counting {
    /// Begins a search, at the first row.
    fn begin(&mut self)
        ensures { Begun (view_of self.old) self.new }
    {
        self.row.clear();
        self.row.resize(self.variables, false).unwrap();
        self.control.phase = Phase::Searching;
    }

    /// Tries the row, and where it fails goes on to the next.
    fn attempt(&mut self) -> Answer
        requires { self.old.control.phase ≡ Searching }
        ensures phase { self.new.control.phase ≡ Searching }
        ensures tries { Tries (view_of self.old) result (view_in (phase_after result) self.new) }
    {
        if self.row.all_hold(&self.words) {
            return Answer::Model;
        }
        if count_up(&mut self.row) {
            return Answer::More;
        }
        Answer::Unsatisfiable
    }
}
