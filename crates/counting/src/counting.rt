// The counting engine's memory, and what always holds of it.
// Its calls are in `counting/acts.rt`.
ghost use Rattle.std.specs.Prelude.{◌≡◌, ◌≢◌, ◌≤◌, true, vec_len, vec_capacity};
ghost use Rattle.clause.specs.Logic.{all_inside, words as size};
ghost use Rattle.clause.specs.Memory.{clauses_of, encode};
ghost use Rattle.counting.specs.Tried.{Tried};
ghost use Rattle.engine.specs.declared.types.Phase.TheVariants.{Idle};

use clause::literal::Literal;
use engine::control::Control;

pub mod acts;

/// An engine that tries every row of values in counting order, one row a step.
/// The words are the clauses. From a search's first step on the row has a value for each variable: it is the one tried next, or the model.
#[derive(Drop)]
pub struct Counting {
    row: Vec<bool>,
    words: Vec<Literal>,
    variables: usize,
    control: Control,
    // No vector bound to its places by a type: it would need a maker, growth, pushes and reads of its own, with contracts, for these two lines.
    ghost row_room: { (variables ≤ control.places.variables) × (control.places.variables ≤ vec_capacity row) },
    ghost word_room: { (vec_len words ≤ control.places.words) × (control.places.words ≤ vec_capacity words) },
    ghost coded: { encode (clauses_of words.items) ≡ words.items },
    ghost sized: { size (clauses_of words.items) ≡ vec_len words },
    ghost inside: { all_inside variables (clauses_of words.items) ≡ true },
    ghost whole: { control.phase ≢ Idle → vec_len row ≡ variables },
    ghost tried: { Tried control.phase row.items (clauses_of words.items) },
}
