// How far a search has come.
ghost use Rattle.std.specs.Prelude.{◌≡◌};

/// How far a search has come.
#[derive(Clone, Copy, Debug, PartialEq, Eq, Default)]
pub struct Progress {
    /// The length of the trail.
    pub trail: usize,
    /// The positions of the trail whose clauses were looked at.
    pub propagated: usize,
    /// The slot from which the choice of a variable looks on.
    pub next: usize,
    /// The literals of the clauses looked at since the making: a measurement that no promise rests on.
    pub visits: u64,
}

impl Progress {
    /// Back to an empty trail; the measurement goes on.
    pub(crate) fn restart(&mut self)
        ensures { self.new ≡ record { trail = 0; propagated = 0; next = 0; visits = self.old.visits } }
    {
        *self = Progress {
            visits: self.visits,
            ..Progress::default()
        };
    }
}
