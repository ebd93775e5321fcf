// Values of variables, and what they make of literals, clauses and clause lists in memory.
ghost use Rattle.std.specs.Prelude.{◌≡◌, map};
ghost use Rattle.clause.specs.Logic.{Row, literal_holds, clause_holds, all_hold, value};
ghost use Rattle.clause.specs.Memory.{clauses_of};

use crate::literal::Literal;
use crate::memory::{AsLiteral, Clauses};

/// A value for each variable.
pub trait Values {
    /// The values, that of variable 1 first.
    ghost row: { Self → Row };

    /// The value of a variable.
    fn value(&self, variable: usize) -> bool
        ensures { result ≡ value (row self.now) variable };

    /// Whether a literal holds.
    final fn literal_holds(&self, literal: Literal) -> bool
        ensures { result ≡ literal_holds (row self.now) literal }
    {
        self.value(literal.variable) != literal.negated
    }

    /// Whether at least one literal of the clause holds.
    final fn clause_holds<W: AsLiteral>(&self, clause: &[W]) -> bool
        ensures { result ≡ clause_holds (row self.now) (map W.literal clause.now) }
    {
        clause.iter().any(|word| self.literal_holds(word.literal()))
    }

    /// Whether every clause in these words holds.
    final fn all_hold<W: AsLiteral>(&self, words: &[W]) -> bool
        ensures { result ≡ all_hold (row self.now) (clauses_of (map W.literal words.now)) }
    {
        Clauses::new(words).all(|clause| self.clause_holds(clause))
    }
}

impl Values for Vec<bool> {
    ghost row = { λ v. v.items };

    fn value(&self, variable: usize) -> bool {
        self.get(variable.saturating_sub(1))
            .copied()
            .unwrap_or(false)
    }
}
