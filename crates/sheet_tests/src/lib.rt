// Runs of the reader and the writer of sheets on examples, in a crate of their own since a crate with tests is proved twice.
#![tactic(auto)]

#[cfg(test)]
mod again;
#[cfg(test)]
mod faults;
#[cfg(test)]
mod limits;
