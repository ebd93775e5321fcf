// The interface of an engine: what it means, by its view, and what each call does to that.
ghost use Rattle.std.specs.Prelude.{◌≡◌};
ghost use Rattle.engine.specs.View.{View};
ghost use Rattle.engine.specs.Calls.{Cleared, Grown, Added, Stepped, Valued};

use crate::types::{Answer, Places};
use clause::literal::Literal;
use refusal::refusal::Refusal;

/// An engine looks for values of its variables that make every clause of its list hold, step by step.
/// A refused call and a question change nothing.
pub trait Engine {
    /// What the engine means: variables, clauses, count of steps, places and state.
    ghost view: { Self → View };

    /// No variables and no clauses, idle, at any time.
    fn clear(&mut self)
        ensures { Cleared (view self.old) (view self.new) };

    /// So many variables more; idle afterwards. Refused while searching, then where the places lack.
    fn grow(&mut self, variables: usize) -> Result<(), Refusal>
        ensures { Grown (view self.old) variables result (view self.new) };

    /// Puts a clause last; idle afterwards. Refused while searching, then for a variable out of range, then where the places lack.
    fn add(&mut self, clause: &[Literal]) -> Result<(), Refusal>
        ensures { Added (view self.old) clause.now result (view self.new) };

    /// One step of the search; after an answer it repeats the answer. Refused where the count of steps would pass its limit.
    fn step(&mut self) -> Result<Answer, Refusal>
        ensures { Stepped (view self.old) result (view self.new) };

    /// A variable's value at the model. Refused for a variable out of range, then where there is no model.
    fn value(&self, variable: usize) -> Result<bool, Refusal>
        ensures { Valued (view self.now) variable result };

    /// The steps since the making.
    fn count(&self) -> u64
        ensures { result ≡ (view self.now).count };

    /// The places, which never change.
    fn places(&self) -> Places
        ensures { result ≡ (view self.now).places };
}
