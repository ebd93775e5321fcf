// Target against specification: at one input word, and at every input word, 64 at a time.
#![tactic(auto)]

mod bits;
mod comparison;
pub mod differing;
mod lanes;
pub mod laws;
pub mod matching;
pub mod outputs;
