// Rows of 32 bytes: a letter, six fields of five columns, a line feed. How a number stands in a field, and numbers in a row.
#![tactic(auto)]

pub mod field;
pub mod row;
pub mod shape;
