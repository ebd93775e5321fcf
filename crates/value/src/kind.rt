// What a kind of value has, for circuits to be evaluated over it: the Boolean operations and, where it has any, lanes.
ghost use Rattle.std.specs.Prelude.{◌≡◌, ℕ};
ghost use Rattle.value.specs.Ops.{Ops};
ghost use Rattle.value.specs.Lanes.{LaneLaws};
ghost use Rattle.value.specs.declared.ternary.Ternary.{Ternary};

/// Values with the Boolean operations.
pub trait Algebra: Sized {
    // what the methods below answer
    ghost ops: { Ops Self };

    /// False.
    fn falsity() -> Self
        ensures { result ≡ ops.falsity };

    /// True.
    fn truth() -> Self
        ensures { result ≡ ops.truth };

    /// Not.
    fn inverse(self) -> Self
        ensures { result ≡ ops.inverse self };

    /// And.
    fn both(self, other: Self) -> Self
        ensures { result ≡ ops.both self other };

    /// Or.
    fn either(self, other: Self) -> Self
        ensures { result ≡ ops.either self other };

    /// Exclusive or.
    fn differ(self, other: Self) -> Self
        ensures { result ≡ ops.differ self other };
}

/// Values that say of each of their lanes 0, 1 or unknown.
pub trait Lanes: Algebra {
    // how many
    ghost lanes: { ℕ };

    // what a value says of a lane, counted from 0
    ghost lane: { Self → ℕ → Ternary };

    ghost sound: { LaneLaws Self.Algebra.ops lanes lane };
}
