// What one lane says, and the three-valued bit.
ghost use Rattle.value.specs.Kinds.{ternary_ops, ternary_lane};
ghost use Rattle.value.specs.Sharpness.{ternary_laws};

use crate::kind::{Algebra, Lanes};

/// 0, 1 or not known.
// `Option<bool>` holds as much but is no plainer: `(One, y) => y` below would be `(Some(true), y) => y`, and so in each law of lanes,
// and `None` would not say what is missing.
#[derive(Clone, Copy, PartialEq, Eq, Debug)]
pub enum Ternary {
    Zero,
    One,
    Unknown,
}

impl Algebra for Ternary {
    ghost ops = { ternary_ops };

    fn falsity() -> Ternary {
        Ternary::Zero
    }

    fn truth() -> Ternary {
        Ternary::One
    }

    fn inverse(self) -> Ternary {
        match self {
            Ternary::Zero => Ternary::One,
            Ternary::One => Ternary::Zero,
            Ternary::Unknown => Ternary::Unknown,
        }
    }

    fn both(self, other: Ternary) -> Ternary {
        match (self, other) {
            (Ternary::Zero, _) => Ternary::Zero,
            (Ternary::One, y) => y,
            (Ternary::Unknown, Ternary::Zero) => Ternary::Zero,
            (Ternary::Unknown, Ternary::One) => Ternary::Unknown,
            (Ternary::Unknown, Ternary::Unknown) => Ternary::Unknown,
        }
    }

    fn either(self, other: Ternary) -> Ternary {
        match (self, other) {
            (Ternary::Zero, y) => y,
            (Ternary::One, _) => Ternary::One,
            (Ternary::Unknown, Ternary::Zero) => Ternary::Unknown,
            (Ternary::Unknown, Ternary::One) => Ternary::One,
            (Ternary::Unknown, Ternary::Unknown) => Ternary::Unknown,
        }
    }

    fn differ(self, other: Ternary) -> Ternary {
        match self {
            Ternary::Zero => other,
            Ternary::One => other.inverse(),
            Ternary::Unknown => Ternary::Unknown,
        }
    }
}

impl Lanes for Ternary {
    ghost lanes = { 1 };

    ghost lane = { ternary_lane };

    ghost sound = { ternary_laws };
}
