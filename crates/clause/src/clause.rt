// A clause is a slice of literals. The variables are numbered from 1.
ghost use Rattle.std.specs.Prelude.{◌≡◌};
ghost use Rattle.clause.specs.Logic.{outside, some_outside};

use crate::literal::Literal;

/// Whether a variable is not one of 1 to `variables`.
pub fn outside(variables: usize, variable: usize) -> bool
    ensures { result ≡ outside variables variable }
{
    !(1..=variables).contains(&variable)
}

/// Whether some literal's variable is not one of 1 to `variables`.
pub fn some_outside(clause: &[Literal], variables: usize) -> bool
    ensures { result ≡ some_outside variables clause.now }
{
    clause
        .iter()
        .any(|literal| outside(variables, literal.variable))
}
