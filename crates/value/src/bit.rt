// The single bit.
ghost use Rattle.std.specs.Prelude.{◌≡◌};
ghost use Rattle.value.specs.Kinds.{the_bit, bit_ops, bit_lane};
ghost use Rattle.value.specs.Words.{bit_laws};

use crate::kind::{Algebra, Lanes};

/// A single bit.
#[derive(Clone, Copy, PartialEq, Eq, Debug)]
pub struct Bit {
    pub value: bool,
}

impl From<bool> for Bit {
    ghost from_gives = { λ value bit. bit ≡ the_bit value };

    fn from(value: bool) -> Bit {
        Bit { value }
    }
}

impl Algebra for Bit {
    ghost ops = { bit_ops };

    fn falsity() -> Bit {
        Bit { value: false }
    }

    fn truth() -> Bit {
        Bit { value: true }
    }

    fn inverse(self) -> Bit {
        Bit { value: !self.value }
    }

    fn both(self, other: Bit) -> Bit {
        Bit {
            value: self.value & other.value,
        }
    }

    fn either(self, other: Bit) -> Bit {
        Bit {
            value: self.value | other.value,
        }
    }

    fn differ(self, other: Bit) -> Bit {
        Bit {
            value: self.value ^ other.value,
        }
    }
}

impl Lanes for Bit {
    ghost lanes = { 1 };

    ghost lane = { bit_lane };

    ghost sound = { bit_laws };
}
