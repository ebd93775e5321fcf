// What holds of any two engines.
ghost use Rattle.engine.specs.Search.{Agree};

/// Engines agree: where one comes to a model, no other that has as many variables and the same clauses comes to none.
pub fn engines_agree()
    ensures { Agree }
{}
