// What engines tell.
ghost use Rattle.std.specs.Prelude.{◌≡◌};
ghost use Rattle.engine.specs.Phases.{phase_after};

/// How many variables and how many words an engine has room for.
#[derive(Clone, Copy, Debug, PartialEq, Eq)]
pub struct Places {
    pub variables: usize,
    pub words: usize,
}

/// What a step answers.
#[derive(Clone, Copy, Debug, PartialEq, Eq)]
pub enum Answer {
    /// The search goes on.
    More,
    /// Values are found that make every clause hold.
    Model,
    /// No values make every clause hold.
    Unsatisfiable,
}

/// What an engine is doing, as it keeps it for itself.
// Not an `Option<Answer>`: there each look would say `None` for idle and `Some(Answer::More)` for searching, which is no plainer.
#[derive(Clone, Copy, Debug, PartialEq, Eq)]
pub enum Phase {
    /// Nothing since the last change of its formula.
    Idle,
    /// It has made a step and not answered yet.
    Searching,
    /// It has found a model.
    Model,
    /// It has found that there is none.
    Unsatisfiable,
}

/// What the engine is doing after this answer.
impl From<Answer> for Phase {
    ghost from_gives = { λ answer phase. phase ≡ phase_after answer };

    fn from(answer: Answer) -> Phase {
        match answer {
            Answer::More => Phase::Searching,
            Answer::Model => Phase::Model,
            Answer::Unsatisfiable => Phase::Unsatisfiable,
        }
    }
}
