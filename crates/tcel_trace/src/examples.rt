ghost use Rattle.std.specs.Prelude.{◌≡◌, [], map, is_some, codes};
ghost use Rattle.tcel_trace.specs.TraceForm.{IsTrace, IsBadAt};
ghost use Rattle.tcel_trace.specs.Reading.{line_in};
ghost use Rattle.tcel_trace.specs.Examples.{run_lines, run_text, unended_text, spaced_text, texts};

/// What some texts say as traces (docs/formats.md).
pub fn trace_examples()
    ensures run { IsTrace run_lines run_text }
    ensures nothing { IsTrace [] [] }
    // Which texts have the form of a line.
    ensures forms { map (λ e. is_some (line_in e.0)) texts ≡ map (λ e. e.1) texts }
    ensures word { IsBadAt (codes "x") 1 }
    // Each line ends with a line feed, the last one too.
    ensures unended { IsBadAt unended_text 2 }
    ensures spaces { IsBadAt spaced_text 3 }
{}
