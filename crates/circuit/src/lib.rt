// Gates, circuits and pairs of circuits, lawful by their types, and what a circuit says of itself.
#![tactic(auto)]

pub mod circuit;
pub mod gate;
pub mod pair;
pub mod parts;
