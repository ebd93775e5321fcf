// Sheets: reading circuits and pairs from their bytes, with every fault exact, and writing them again.
#![tactic(auto)]

pub mod length;
mod parts;
pub mod read;
pub mod room;
mod rows;
pub mod write;
