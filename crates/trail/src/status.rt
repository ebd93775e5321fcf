// What the values so far make of a clause.
use clause::literal::Literal;

/// What the values so far make of a clause.
#[derive(Clone, Copy, Debug, PartialEq, Eq)]
pub enum Status {
    /// One of its literals holds.
    Satisfied,
    /// None was seen to hold, and two are open.
    Unresolved,
    /// All its literals are false but this one, which is open.
    Unit(Literal),
    /// All its literals are false: a conflict.
    Falsified,
}
