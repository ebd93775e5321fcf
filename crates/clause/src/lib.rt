// Literals and clauses: the terms that every engine speaks in.
#![tactic(auto)]

pub mod clause;
pub mod literal;
pub mod memory;
pub mod values;
