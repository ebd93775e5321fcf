// One element of an engine's memory for variables, and one of its memory for words.
ghost use Rattle.std.specs.Prelude.{◌≡◌, Some, if◌then◌else◌};
ghost use Rattle.trail.specs.Cells.{empty_slot, empty_word};

use clause::literal::Literal;
use clause::memory::AsLiteral;

/// A position of the trail: an assigned literal, and whether it is an open decision or was forced.
#[derive(Clone, Copy, Debug, PartialEq, Eq)]
pub struct Entry {
    pub literal: Literal,
    pub decided: bool,
}

/// Slot i serves variable i + 1 with its value so far and the newest words that hold its literals,
/// and, apart from that, position i of the trail.
// Both share one vector, where a `Vec<Entry>` would say the trail better: an engine is handed two vectors, and no call allocates.
// Words are named by their place: the memory is fixed, and no call allocates.
#[derive(Clone, Copy, Debug, PartialEq, Eq)]
pub struct Slot {
    pub value: Option<bool>,
    pub entry: Entry,
    pub positive: Option<usize>,
    pub negative: Option<usize>,
}

/// A clause lies in memory as a head, with the number of its literals in the place of a variable, and then its literals.
/// Each word tells where its clause's head is, and a literal's word the next older word with the same literal.
#[derive(Clone, Copy, Debug, PartialEq, Eq)]
pub struct Word {
    pub literal: Literal,
    // By place, as in a slot: the memory is fixed, and no call allocates.
    pub head: usize,
    pub older: Option<usize>,
}

impl Slot {
    /// An open variable that no clause has yet.
    // No `Default`: its literal of variable 0 is no literal, so `Literal` has none, and a derive here would ask for one.
    pub fn empty() -> Slot
        ensures { result ≡ empty_slot }
    {
        Slot {
            value: None,
            entry: Entry {
                literal: Literal {
                    variable: 0,
                    negated: false,
                },
                decided: false,
            },
            positive: None,
            negative: None,
        }
    }

    /// The newest word that holds the literal, which is the slot's variable or its negation.
    pub fn newest(&self, literal: Literal) -> Option<usize>
        ensures { result ≡ (if literal.negated then self.now.negative else self.now.positive) }
    {
        let Slot {
            positive,
            negative,
            ..
        } = *self;
        if literal.negated { negative } else { positive }
    }

    /// Makes a word the newest that holds the literal, and tells which was.
    pub fn link(&mut self, literal: Literal, word: usize) -> Option<usize>
        ensures older { result ≡ (if literal.negated then self.old.negative else self.old.positive) }
        ensures linked { self.new ≡ (if literal.negated then record self.old { negative = Some word } else record self.old { positive = Some word }) }
    {
        if literal.negated {
            self.negative.replace(word)
        } else {
            self.positive.replace(word)
        }
    }
}

impl Word {
    /// A word that holds nothing yet.
    // No `Default`, as for a slot: its literal of variable 0 is no literal.
    pub fn empty() -> Word
        ensures { result ≡ empty_word }
    {
        Word {
            literal: Literal {
                variable: 0,
                negated: false,
            },
            head: 0,
            older: None,
        }
    }
}

impl AsLiteral for Word {
    ghost literal = { λ w. w.literal };

    fn literal(&self) -> Literal {
        self.literal
    }
}
