// The laws of the meaning, as promises.
ghost use Rattle.meaning.specs.Laws.{OneMeaning};

/// At each setting and input word a lawful circuit's nets have exactly one list of values.
pub fn one_meaning_holds()
    ensures { OneMeaning }
{}
