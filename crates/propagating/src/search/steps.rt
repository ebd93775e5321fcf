// One step of a search: propagation, and then a decision, a return from a conflict, or an answer.
ghost use Rattle.std.specs.Prelude.{◌≡◌, ℕ, ◌+◌, ◌<◌, ◌≤◌, length, vec_len, None, IfOk, OnErr, slice_index_or};
ghost use Rattle.trail.specs.Debt.{nodes};
ghost use Rattle.propagating.specs.Parts.{values_in, owes, Refutes, Pushes, decision, Keeps, TurnsFrom, Turns, Steps};

use super::Search;
use super::propagation::Conflict;
use crate::memory::{assign, choose, undo};
use clause::literal::Literal;
use clause::values::Values;
use engine::types::Answer;
use trail::cells::Entry;

impl Search {
    /// Makes the slot's variable, which is open, false, as an open decision.
    fn decide(&mut self, slot: usize)
        requires place { slot < vec_len self.old.slots }
        requires opened { slice_index_or (values_in self.old) slot None ≡ None }
        ensures pushes { Pushes self.old (decision slot) self.new }
        ensures keeps { Keeps self.old self.new }
        ensures debt { owes self.new + 1 ≤ owes self.old }
    {
        self.push(Entry {
            literal: Literal {
                variable: slot + 1,
                negated: true,
            },
            decided: true,
        });
        self.progress.next = slot + 1;
    }

    /// After a conflict, goes back to the last open decision and puts its negation there, forced.
    /// Where no decision is open, there is no model, and the trail is empty.
    fn reverse(&mut self) -> Answer
        requires { Refutes self.old }
        ensures { Steps self.old result self.new }
    {
        let Some(position) = undo(&mut self.slots, self.progress.trail) else {
            self.progress.restart();
            return Answer::Unsatisfiable;
        };
        let literal = self.slots[position].entry.literal;
        let entry = Entry {
            literal: literal.negation(),
            decided: false,
        };
        assign(&mut self.slots, position, entry);
        self.progress.trail = position + 1;
        self.progress.propagated = position;
        self.progress.next = literal.variable;
        Answer::More
    }

    /// Propagates, and decides an open variable. Where none is open, all clauses hold, or there is a conflict.
    fn pursue(&mut self) -> Result<Answer, Conflict>
        ensures keeps { Keeps self.old self.new }
        ensures debt { owes self.new ≤ owes self.old }
        ensures conflict { OnErr result (Refutes self.new) }
        ensures turns { IfOk result (λ a. Turns self.old a self.new) }
    {
        self.propagate()?;
        if let Some(slot) = choose(&self.slots, self.progress.next) {
            self.decide(slot);
            return Ok(Answer::More);
        }
        if self.all_hold(&self.words) {
            Ok(Answer::Model)
        } else {
            Err(Conflict)
        }
    }

    /// One step of a search under way.
    pub(crate) fn advance(&mut self) -> Answer
        ensures { Steps self.old result self.new }
    {
        match self.pursue() {
            Ok(answer) => answer,
            Err(Conflict) => self.reverse(),
        }
    }

    /// The first step, from an empty trail: every clause is looked at once.
    pub(crate) fn begin(&mut self) -> Answer
        ensures keeps { Keeps self.old self.new }
        ensures turns { TurnsFrom (nodes (vec_len self.old.slots)) result self.new }
    {
        self.restart();
        match self.sweep() {
            Ok(()) => self.advance(),
            Err(Conflict) => self.reverse(),
        }
    }
}
