// The laws of the format, as promises.
ghost use Rattle.sheet_format.specs.Laws.{SheetLaws, PairLaws};
ghost use Rattle.sheet_format.specs.Samples.{Samples};

/// Bytes without a fault are the rows of exactly one lawful circuit, and the rows of a lawful circuit are without a fault:
/// a circuit written and read is the same circuit, bytes read and written are the same bytes. And so of a pair.
pub fn round_trips_hold()
    ensures sheets { SheetLaws }
    ensures pairs { PairLaws }
{}

/// The worked examples of the definitions.
pub fn samples_hold()
    ensures { Samples }
{}
