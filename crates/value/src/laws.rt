// The laws of the kinds and of evaluation, as promises.
ghost use Rattle.value.specs.Kinds.{ternary_ops};
ghost use Rattle.value.specs.Lanes.{Sharp};
ghost use Rattle.value.specs.Laws.{EvaluationRight};

/// A three-valued answer is known exactly when all ways that the operands may turn out agree.
pub fn three_values_are_sharp()
    ensures { Sharp ternary_ops }
{}

/// For every kind with lanes, a known lane of a net is the bit that every completion gives, and is known where all that is given is.
pub fn evaluation_is_right<K>()
    ensures { EvaluationRight K }
{}
