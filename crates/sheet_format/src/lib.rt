// The sheet format: the rows of a circuit, the first fault of a sheet or a pair, and the laws that tie the two.
#![tactic(auto)]

pub mod laws;
