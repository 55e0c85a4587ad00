ghost use Rattle.std.specs.Prelude.{◌≡◌, ◌∷◌, [], map, pos, codes, Some, None};
ghost use Rattle.std.specs.List.{range_with_len};
ghost use Rattle.tcel_judge.specs.FirstBreach.{breach_at};
ghost use Rattle.tcel_judge.specs.Examples.{both, counted, counting, ends, marks, receives, sends, unended, waited, SaysCounting};
ghost use Rattle.tcel_judge.specs.declared.verdict.Breach.TheVariants.{Order, Unknown, Entry, Early, Overdue, Missing};
ghost use Rattle.tcel_judge.specs.declared.verdict.Due.TheVariants.{Event, End};
ghost use Rattle.tcel_judge.specs.declared.verdict.Verdict.TheVariants.{No};

/// What is wrong with lines of two programs (docs/analysis.md).
pub fn line_examples()
    ensures right { map (breach_at counting counted) (range_with_len 0 4) ≡ None ∷ None ∷ None ∷ None ∷ [] }
    ensures value { breach_at counting (receives 1 ∷ sends 3 (pos 6) ∷ []) 1 ≡ Some (Entry 2) }
    ensures overdue { breach_at counting (receives 11 ∷ []) 0 ≡ Some (Overdue 1) }
    // At the end of its window an event is in time.
    ensures at_the_end { breach_at counting (receives 10 ∷ []) 0 ≡ None }
    ensures late_mark { breach_at counting (receives 1 ∷ sends 3 (pos 5) ∷ marks 11 ∷ []) 2 ≡ Some (Overdue 3) }
    ensures order { breach_at counting (receives 1 ∷ sends 3 (pos 5) ∷ marks 3 ∷ []) 2 ≡ Some (Order 3) }
    ensures state { breach_at counting (receives 1 ∷ sends 3 (pos 5) ∷ marks 8 ∷ ends 9 (codes " n=2") ∷ []) 3 ≡ Some (Entry 4) }
    ensures behind_the_end { breach_at counting (receives 1 ∷ receives 2 ∷ []) 1 ≡ Some (Entry 2) }
    // No trace has the first line of another task, whatever it shows.
    ensures unknown { breach_at counting (waited 15) 0 ≡ Some (Unknown 1) }
    // A window is asked for, and no machine's own ticks.
    ensures waits { map (breach_at both (waited 13)) (range_with_len 0 4) ≡ None ∷ None ∷ None ∷ None ∷ [] }
    ensures at_the_start { breach_at both (waited 10) 3 ≡ None }
    ensures early { breach_at both (waited 9) 3 ≡ Some (Early 4) }
{}

/// What is missing of a frame that takes 9 cycles, and whose events and mark have windows of 10 ticks, after 10 ticks.
pub fn missing_examples()
    ensures end { SaysCounting unended (No (Missing 0 0 End)) }
    ensures event { SaysCounting [] (No (Missing 0 0 (Event 0))) }
    // What is wrong with a line comes before what is missing.
    ensures line { SaysCounting (receives 11 ∷ []) (No (Overdue 1)) }
{}
