// Engines: the interface with its meaning, and running a search to its answer.
#![tactic(auto)]

pub mod control;
pub mod engine;
pub mod laws;
pub mod search;
pub mod types;
