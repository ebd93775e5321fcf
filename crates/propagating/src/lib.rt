// The propagating engine: it decides variables, follows clauses with a single open literal, and returns from conflicts.
#![tactic(auto)]

mod memory;
pub mod progress;
pub mod propagating;
mod search;
