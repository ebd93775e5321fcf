// The word of 64 lanes.
ghost use Rattle.std.specs.Prelude.{◌≡◌, ℕ, ◌<◌};
ghost use Rattle.meaning.specs.Meaning.{bit};
ghost use Rattle.value.specs.Kinds.{word_ops, word_lane};
ghost use Rattle.value.specs.Words.{word_laws};

use crate::kind::{Algebra, Lanes};

/// Sixty-four lanes, each a bit.
#[derive(Clone, Copy, PartialEq, Eq, Debug)]
pub struct Word {
    pub bits: u64,
}

/// The same bit in every lane.
impl From<bool> for Word {
    ghost from_gives = { λ value word. (j : ℕ) → j < 64 → bit word.bits j ≡ value };

    fn from(value: bool) -> Word {
        if value {
            Word::truth()
        } else {
            Word::falsity()
        }
    }
}

// One impl for this and `Bit` would be no plainer: it would stand on a trait of `bool` and `u64` with false, true, not, and, or,
// exclusive or and their laws, which is `Algebra` again.
impl Algebra for Word {
    ghost ops = { word_ops };

    fn falsity() -> Word {
        Word { bits: 0 }
    }

    fn truth() -> Word {
        Word { bits: u64::MAX }
    }

    fn inverse(self) -> Word {
        Word {
            bits: self.bits ^ u64::MAX,
        }
    }

    fn both(self, other: Word) -> Word {
        Word {
            bits: self.bits & other.bits,
        }
    }

    fn either(self, other: Word) -> Word {
        Word {
            bits: self.bits | other.bits,
        }
    }

    fn differ(self, other: Word) -> Word {
        Word {
            bits: self.bits ^ other.bits,
        }
    }
}

impl Lanes for Word {
    ghost lanes = { 64 };

    ghost lane = { word_lane };

    ghost sound = { word_laws };
}
