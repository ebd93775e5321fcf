// A search: the formula and the trail in memory, and what always holds of them.
ghost use Rattle.std.specs.Prelude.{vec_len};
ghost use Rattle.std.proofs.Props.{props};
ghost use Rattle.trail.specs.Cells.{values_of, entries_of, formula};
ghost use Rattle.trail.specs.Standing.{Standing, Loaded};

use crate::progress::Progress;
use trail::cells::{Slot, Word};

mod formula;
mod propagation;
mod steps;

/// A search for values that make every clause hold: a slot for each variable, the words of the clauses,
/// and how far it has come. The trail of a model stays until the next search's first step.
#[derive(Drop)]
pub(crate) struct Search {
    slots: Vec<Slot>,
    words: Vec<Word>,
    progress: Progress,
    ghost loaded: { Loaded (vec_len slots) words.items } by { Prim.hlevel props },
    ghost standing: { Standing (vec_len slots) (formula words.items) progress.trail (values_of slots.items) (entries_of slots.items) } by { Prim.hlevel props },
}
