ghost use Rattle.tcel_link.specs.Laws.{DerivedFramesAreLinked, LinkedTracesMeet, ReceivesAreSamples};

/// What holds of all linked tasks (docs/language.md).
pub fn linked_laws()
    ensures samples { ReceivesAreSamples }
    ensures frames { DerivedFramesAreLinked }
{}

/// What the traces of a machine show over the script in which linked inputs have what they receive (docs/language.md).
pub fn linked_traces_meet()
    ensures { LinkedTracesMeet }
{}
