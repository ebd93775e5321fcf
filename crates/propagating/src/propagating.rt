// The engine: a search, and what every engine keeps beside it.
ghost use Rattle.std.specs.Prelude.{◌≤◌, vec_len, vec_capacity};

use crate::search::Search;
use engine::control::Control;

pub mod acts;

/// The propagating engine over its memory, which holds as many slots for variables and words for clauses as it has places.
///
/// A step costs, besides the choice of a variable (each slot at most once, mostly those after the last decision),
/// the literals of the clauses that have the negation of a newly assigned literal. The first step looks at every clause once,
/// and so does a step at a full trail; after a model the first step opens every variable too.
#[derive(Drop)]
pub struct Propagating {
    search: Search,
    control: Control,
    // No vector bound to its places by a type: it would need a maker, growth, pushes and reads of its own, with contracts, for these two lines.
    ghost slots: { (vec_len search.slots ≤ control.places.variables) × (control.places.variables ≤ vec_capacity search.slots) },
    ghost words: { (vec_len search.words ≤ control.places.words) × (control.places.words ≤ vec_capacity search.words) },
}
