// The counting engine: it tries every row of values, in counting order, until one makes every clause hold.
// It is the simplest engine that is right; its cost rises with 2 to the number of variables.
#![tactic(auto)]

pub mod counting;
mod rows;
