// The trail and the values in memory: a literal is assigned, and taken off again; and how a clause is stored.
ghost use Rattle.std.specs.Prelude.{◌≡◌, ℕ, ◌+◌, ◌-◌, ◌<◌, ◌≤◌, false, [], ◌∷◌, ◌++◌, length, take, replicate, None, vec_len, vec_capacity, MatchOption, ◌≢◌, slice_index_or, slice_set};
ghost use Rattle.clause.specs.Memory.{head};
ghost use Rattle.clause.specs.Logic.{outside, some_outside};
ghost use Rattle.trail.specs.Cells.{values_of, entries_of, literals_of, heads_of};
ghost use Rattle.trail.specs.Values.{assign};
ghost use Rattle.trail.specs.Trail.{written, Fresh};
ghost use Rattle.trail.specs.Standing.{BackTo, AllForced};

use clause::literal::Literal;
use trail::cells::{Entry, Slot, Word};

/// Puts a literal at a position of the trail, and makes it hold.
pub(crate) fn assign(slots: &mut [Slot], position: usize, entry: Entry)
    requires place { position < length slots.old }
    requires inside { outside (length slots.old) entry.literal.variable ≡ false }
    ensures values { values_of slots.new ≡ assign (values_of slots.old) entry.literal }
    ensures entries { entries_of slots.new ≡ slice_set (entries_of slots.old) position entry }
{
    let literal = entry.literal;
    slots[literal.variable - 1].value = Some(!literal.negated);
    slots[position].entry = entry;
}

/// The first slot from `from` on, below `to`, whose variable is open.
fn first_open(slots: &[Slot], from: usize, to: usize) -> Option<usize>
    requires { to ≤ length slots.now }
    ensures { MatchOption result ((j : ℕ) → from ≤ j → j < to → slice_index_or (values_of slots.now) j None ≢ None) (λ i. (i < to) × (slice_index_or (values_of slots.now) i None ≡ None)) }
{
    (from..to).find(|&i| slots[i].value.is_none())
}

/// A slot whose variable is open, looked for from `from` on and then before it.
pub(crate) fn choose(slots: &[Slot], from: usize) -> Option<usize>
    ensures { MatchOption result ((j : ℕ) → j < length (values_of slots.now) → slice_index_or (values_of slots.now) j None ≢ None) (λ i. (i < length slots.now) × (slice_index_or (values_of slots.now) i None ≡ None)) }
{
    let middle = from.min(slots.len());
    // By a `match`: of `or_else` over the two parts the check found no proof.
    match first_open(slots, middle, slots.len()) {
        Some(i) => Some(i),
        None => first_open(slots, 0, middle),
    }
}

/// Opens the variables of the trail from its end down to the last open decision, and tells that decision's position.
// By positions, since a position's literal opens another slot: no iterator over the slots can live on the way.
pub(crate) fn undo(slots: &mut [Slot], trail: usize) -> Option<usize>
    requires short { trail ≤ length slots.old }
    requires written { values_of slots.old ≡ written (length slots.old) (take trail (entries_of slots.old)) }
    requires fresh { Fresh (length slots.old) (take trail (entries_of slots.old)) }
    ensures entries { entries_of slots.new ≡ entries_of slots.old }
    ensures back { MatchOption result (AllForced trail (entries_of slots.old) × (values_of slots.new ≡ written (length slots.old) [])) (λ p. BackTo (length slots.old) trail p (entries_of slots.old) (values_of slots.new)) }
{
    for i in (0..trail).rev() {
        let entry = slots[i].entry;
        slots[entry.literal.variable - 1].value = None;
        if entry.decided {
            return Some(i);
        }
    }
    None
}

/// Opens every variable.
pub(crate) fn open_all(slots: &mut [Slot])
    ensures values { values_of slots.new ≡ written (length slots.old) [] }
    ensures entries { entries_of slots.new ≡ entries_of slots.old }
{
    for slot in slots.iter_mut() {
        slot.value = None;
    }
}

/// Writes a clause after the others, each of its words linked to the next older one with the same literal.
pub(crate) fn store(slots: &mut [Slot], words: &mut Vec<Word>, clause: &[Literal])
    requires room { vec_len words.old + (length clause.now + 1) ≤ vec_capacity words.old }
    requires inside { some_outside (length slots.old) clause.now ≡ false }
    ensures literals { literals_of words.new.items ≡ literals_of words.old.items ++ head (length clause.now) ∷ clause.now }
    ensures heads { heads_of words.new.items ≡ heads_of words.old.items ++ replicate (1 + length clause.now) (vec_len words.old) }
    ensures room { vec_capacity words.new ≡ vec_capacity words.old }
    ensures values { values_of slots.new ≡ values_of slots.old }
    ensures entries { entries_of slots.new ≡ entries_of slots.old }
{
    let head = words.len();
    words.push_reserved(Word {
        literal: clause::memory::head(clause.len()),
        head,
        older: None,
    });
    for literal in clause {
        let older = slots[literal.variable - 1].link(*literal, words.len());
        words.push_reserved(Word {
            literal: *literal,
            head,
            older,
        });
    }
}
