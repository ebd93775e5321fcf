// The worked examples, as a promise.
ghost use Rattle.matching.specs.Samples.{Samples};

/// The worked examples of the definitions.
pub fn samples_hold()
    ensures { Samples }
{}
