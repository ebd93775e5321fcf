// Clauses as they lie in memory: a head, which tells the number of its literals, and then the literals, clause after clause.
ghost use Rattle.std.specs.Prelude.{◌≡◌, map};
ghost use Rattle.std.specs.Iterator.{YieldsFirstBy, item_count};
ghost use Rattle.clause.specs.Memory.{clauses_of, head};
ghost use Rattle.clause.specs.declared.literal.Literal.{Literal};

use crate::literal::Literal;

/// An element of a memory of clauses, which holds a literal.
// A head is a literal too, whose variable is the count, and no case of an enum: a clause in memory is then a slice of literals,
// and no look at a literal has a case for a head, which cannot come.
pub trait AsLiteral {
    /// The literal that it holds.
    ghost literal: { Self → Literal };

    fn literal(&self) -> Literal
        ensures { result ≡ literal self.now };
}

impl AsLiteral for Literal {
    ghost literal = { λ l. l };

    fn literal(&self) -> Literal {
        *self
    }
}

/// The head of a clause of so many literals.
pub fn head(count: usize) -> Literal
    ensures { result ≡ head count }
{
    Literal {
        variable: count,
        negated: false,
    }
}

/// The clauses that these words hold, one after another.
#[derive(Drop)]
pub struct Clauses<'a, W> {
    words: &'a [W],
}

impl<'a, W: AsLiteral> Clauses<'a, W> {
    /// All the clauses that these words hold.
    pub fn new(words: &'a [W]) -> Clauses<'a, W>
        ensures { result.words.now ≡ words.now }
    {
        Clauses { words }
    }
}

impl<'a, W: AsLiteral> Iterator for Clauses<'a, W> {
    type Item = &'a [W];

    ghost next_gives = { YieldsFirstBy (λ clause. map W.literal clause.now) (λ s. clauses_of (map W.literal s.words.now)) };

    ghost remaining = { item_count (λ s. clauses_of (map W.literal s.words.now)) };

    fn next(&mut self) -> Option<&'a [W]> {
        let (head, rest) = self.words.split_first()?;
        let size = head.literal().variable.min(rest.len());
        let (clause, later) = rest.split_at(size);
        self.words = later;
        Some(clause)
    }
}
