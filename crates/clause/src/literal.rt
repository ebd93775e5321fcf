// A literal: a variable or its negation.
ghost use Rattle.std.specs.Prelude.{◌≡◌};
ghost use Rattle.clause.specs.Logic.{negation};

/// A variable, numbered from 1, or its negation.
#[derive(Clone, Copy, Debug, PartialEq, Eq)]
pub struct Literal {
    pub variable: usize,
    pub negated: bool,
}

impl Literal {
    /// The literal that holds exactly where this one does not.
    pub fn negation(self) -> Literal
        ensures { result ≡ negation self }
    {
        Literal {
            negated: !self.negated,
            ..self
        }
    }
}
