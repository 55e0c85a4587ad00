ghost use Rattle.tcel_trace.specs.TraceLaws.{IsReadOnce, IsReadOrBad, IsBadOnce, AreEntriesRead};

/// Laws of the text of traces, for proofs. One text is that of one list of lines or has one first line
/// without the form, and never both; the lines of a machine's entries are lines of a trace.
pub fn trace_laws()
    ensures once { IsReadOnce }
    ensures apart { IsReadOrBad }
    ensures first { IsBadOnce }
    ensures entries { AreEntriesRead }
{}
