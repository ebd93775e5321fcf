// Clauses under the values so far, and the literals that follow from them.
ghost use Rattle.std.specs.Prelude.{◌≡◌, ℕ, ◌+◌, ◌<◌, ◌≤◌, false, length, vec_len, is_err};
ghost use Rattle.clause.specs.Logic.{outside, some_outside};
ghost use Rattle.clause.specs.Memory.{Begins};
ghost use Rattle.trail.specs.Cells.{values_of, literals_of, size_at, clause_at};
ghost use Rattle.trail.specs.Values.{truth, status, is_falsified};
ghost use Rattle.propagating.specs.Parts.{clauses_in, values_in, owes, MayPush, Pushes, Keeps, Follows};

use super::Search;
use crate::memory::assign;
use clause::literal::Literal;
use trail::cells::{Entry, Slot, Word};
use trail::status::Status;

/// A clause whose literals are all false.
#[derive(Clone, Copy, Debug, PartialEq, Eq)]
pub(crate) struct Conflict;

/// Whether a literal holds, so far.
fn truth(slots: &[Slot], literal: Literal) -> Option<bool>
    requires { outside (length slots.now) literal.variable ≡ false }
    ensures { result ≡ truth (values_of slots.now) literal }
{
    slots[literal.variable - 1]
        .value
        .map(|value| value != literal.negated)
}

/// What the values so far make of a clause.
fn look(slots: &[Slot], clause: &[Word]) -> Status
    requires { some_outside (length slots.now) (literals_of clause.now) ≡ false }
    ensures { result ≡ status (values_of slots.now) (literals_of clause.now) }
{
    let mut pending = None;
    for word in clause {
        match truth(slots, word.literal) {
            Some(true) => return Status::Satisfied,
            Some(false) => {}
            None => {
                if pending.is_some() {
                    return Status::Unresolved;
                }
                pending = Some(word.literal);
            }
        }
    }
    pending.map_or(Status::Falsified, Status::Unit)
}

/// The literals of the clause whose head is there.
fn clause_at(words: &[Word], head: usize) -> &[Word]
    requires { (head < length words.now) × (head + 1 + size_at words.now head ≤ length words.now) }
    ensures { result.now ≡ clause_at words.now head }
{
    let from = head + 1;
    let to = from + words[head].literal.variable;
    &words[from..to]
}

impl Search {
    /// Puts a literal last on the trail.
    pub(super) fn push(&mut self, entry: Entry)
        requires { MayPush self.old entry }
        ensures pushes { Pushes self.old entry self.new }
        ensures keeps { Keeps self.old self.new }
        ensures debt { owes self.new + 1 ≤ owes self.old }
    {
        assign(&mut self.slots, self.progress.trail, entry);
        self.progress.trail += 1;
    }

    /// Looks at the clause whose head is there: a unit's literal is put on the trail.
    fn consider(&mut self, head: usize) -> Result<(), Conflict>
        requires { Begins (vec_len self.old.slots) (literals_of self.old.words.items) (clauses_in self.old) head }
        ensures told { is_err result ≡ is_falsified (status (values_in self.old) (literals_of (clause_at self.old.words.items head))) }
        ensures follows { Follows self.old result self.new }
    {
        let clause = clause_at(&self.words, head);
        self.progress.visits = self.progress.visits.wrapping_add(clause.len() as u64);
        match look(&self.slots, clause) {
            Status::Satisfied | Status::Unresolved => Ok(()),
            Status::Falsified => Err(Conflict),
            Status::Unit(literal) => {
                self.push(Entry {
                    literal,
                    decided: false,
                });
                Ok(())
            }
        }
    }

    /// Looks at the clauses of a word and of the older words that it leads to.
    // `consider` takes the whole search, so no iterator along the links (as `successors` gives) can borrow the words on the way.
    // A link leads to an older word, so the walk ends where one does not.
    fn visit(&mut self, newest: Option<usize>) -> Result<(), Conflict>
        ensures { Follows self.old result self.new }
    {
        let mut end = self.words.len();
        let mut next = newest;
        while let Some(at) = next
            && at < end
        {
            let word = self.words[at];
            self.consider(word.head)?;
            end = at;
            next = word.older;
        }
        Ok(())
    }

    /// For each literal of the trail that was not propagated yet, looks at the clauses that have its negation.
    pub(super) fn propagate(&mut self) -> Result<(), Conflict>
        ensures { Follows self.old result self.new }
    {
        let mut position = self.progress.propagated;
        // The trail grows on the way, so a range up to its length would end too early.
        while position < self.progress.trail {
            let negation = self.slots[position].entry.literal.negation();
            position += 1;
            let newest = self.slots[negation.variable - 1].newest(negation);
            self.visit(newest)?;
        }
        self.progress.propagated = position;
        Ok(())
    }

    /// Looks at every clause once.
    pub(super) fn sweep(&mut self) -> Result<(), Conflict>
        ensures { Follows self.old result self.new }
    {
        let mut head = 0;
        // Looking at a clause changes the search, so an iterator over its words cannot live on the way.
        while head < self.words.len() {
            self.consider(head)?;
            head = head + 1 + self.words[head].literal.variable;
        }
        Ok(())
    }
}
