// Every refusal of the product, its number and its words, and the fault of a sheet: a refusal with its place.
#![tactic(auto)]

pub mod fault;
pub mod refusal;
pub mod role;
