// The state of a search that follows unit clauses: values so far, the trail of assigned literals, and the memory that holds both.
// With a slot's newest words, and the definitions and laws; what assigns, propagates and returns stands in a crate above.
#![tactic(auto)]

pub mod cells;
pub mod status;
