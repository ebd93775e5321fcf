// Kinds of value, and the evaluation of circuits, written once for every kind.
#![tactic(auto)]

pub mod bit;
pub mod evaluate;
pub mod kind;
pub mod laws;
pub mod ternary;
pub mod word;
