// What a circuit computes, apart from any code, and the law that it is one thing.
#![tactic(auto)]

pub mod laws;
