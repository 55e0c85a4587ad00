ghost use Rattle.std.specs.Prelude.{◌≡◌, [], ◌∷◌, ◌++◌, pos, negsuc, replicate};
ghost use Rattle.tcel_core.specs.Examples.{MeetsBoth, MeetsCounter, coded, often_frame, often_front, plainly, shown_by, waiting_front, alarm, array_body, counted, counter, counter_body, counter_streams, counter_vars, edge_body, edge_vars, entry, for_body, loop_vars, memory, nested_body, passed_on, primed_vars, sent, shared_first_body, taken, while_body};
ghost use Rattle.tcel_core.specs.Language.{number, variable};
ghost use Rattle.tcel_core.specs.Meaning.{exec};
ghost use Rattle.tcel_core.specs.Outcome.{event, quiet};
ghost use Rattle.tcel_core.specs.Frames.{declared_state, frame_of, shown, start_cells};
ghost use Rattle.tcel_core.specs.Plain.{plain_task};
ghost use Rattle.tcel_num.specs.Entry.{first, end};
ghost use Rattle.tcel_core.specs.declared.event.EventKind.TheVariants.{Receive, Send};

/// What bodies do, worked out: events in order, arithmetic at its edges, loops, arrays and copies.
pub fn meaning_examples()
    ensures counter { exec counter_body counter_vars (memory (pos 3 ∷ pos 0 ∷ []) counter_streams) ≡
        record {
          memory = memory (pos 4 ∷ pos 5 ∷ []) ((pos 6 ∷ []) ∷ []);
          events = event Receive 0 (pos 5) ∷ event Send 0 (pos 5) ∷ [];
        } }
    ensures edges { exec edge_body edge_vars (memory (pos 0 ∷ pos 0 ∷ pos 0 ∷ []) ([] ∷ [])) ≡
        record {
          memory = memory (pos 0 ∷ pos 0 ∷ pos 0 ∷ []) ([] ∷ []);
          events = event Send 0 (pos 0) ∷ event Send 0 (negsuc 9223372036854775807)
              ∷ event Send 0 (pos 0) ∷ event Send 0 (pos 0)
              ∷ event Receive 0 (pos 0) ∷ event Send 0 (pos 0) ∷ [];
        } }

    // Each turn of a `for` sets its variable, and what the body assigns to it changes no number of turns.
    ensures for_turns { exec for_body loop_vars (memory (replicate 6 (pos 0)) []) ≡
        quiet (memory (pos 3 ∷ pos 7 ∷ pos 0 ∷ pos 0 ∷ pos 0 ∷ pos 0 ∷ []) []) }
    ensures while_holds { exec (while_body 5) loop_vars (memory (pos 0 ∷ []) []) ≡ quiet (memory (pos 12 ∷ []) []) }
    ensures while_limit { exec (while_body 2) loop_vars (memory (pos 0 ∷ []) []) ≡ quiet (memory (pos 8 ∷ []) []) }
    ensures while_not { exec (while_body 2) loop_vars (memory (pos 10 ∷ []) []) ≡ quiet (memory (pos 10 ∷ []) []) }
    ensures arrays { exec array_body loop_vars (memory (pos 1 ∷ pos 2 ∷ replicate 4 (pos 0)) []) ≡
        quiet (memory (pos 1 ∷ pos 2 ∷ pos 8 ∷ pos 7 ∷ pos 8 ∷ pos 7 ∷ []) []) }
{}

/// What frames show, worked out: first values, windows, values that go on from frame to frame, and states.
pub fn frame_examples()
    ensures first_values { start_cells primed_vars (declared_state primed_vars) ≡ pos 4 ∷ pos 0 ∷ pos 0 ∷ pos 0 ∷ [] }
    ensures counter_0 { frame_of counter counter_streams 0 ≡
        record { events = taken (pos 5) 0 10 ∷ sent (pos 5) 0 10 ∷ []; state = pos 1 ∷ [] } }
    ensures counter_1 { frame_of counter counter_streams 1 ≡
        record { events = taken (pos 6) 0 10 ∷ sent (pos 6) 0 10 ∷ []; state = pos 2 ∷ [] } }
    ensures counter_2 { frame_of counter counter_streams 2 ≡
        record { events = taken (pos 0) 0 10 ∷ sent (pos 0) 0 10 ∷ []; state = pos 3 ∷ [] } }

    // `start before` binds the first event of its block in each frame anew.
    ensures alarm_0 { frame_of alarm ((pos 1 ∷ pos 0 ∷ []) ∷ []) 0 ≡
        record { events = taken (pos 1) 0 20 ∷ sent (pos 5) 0 15 ∷ []; state = pos 1 ∷ [] } }
    ensures alarm_1 { frame_of alarm ((pos 1 ∷ pos 0 ∷ []) ∷ []) 1 ≡
        record { events = taken (pos 0) 0 20 ∷ sent (pos 1) 0 15 ∷ sent (pos 5) 0 20 ∷ []; state = pos 1 ∷ [] } }

    // Blocks in blocks, in a frame with the deadline 30.
    ensures nested { (shown 30 counter_vars (exec nested_body counter_vars (memory [] []))).events ≡
        sent (pos 0) 0 30 ∷ sent (pos 1) 3 9 ∷ sent (pos 2) 5 12 ∷ sent (pos 3) 5 15 ∷ [] }
    ensures shared_first { (shown 30 counter_vars (exec shared_first_body counter_vars (memory [] []))).events ≡
        sent (pos 1) 0 9 ∷ sent (pos 2) 0 30 ∷ [] }
{}

/// A task of every statement and expression, as code has it and as plain data.
pub fn plain_examples()
    ensures { plain_task coded ≡ plainly }
{}

/// Traces that meet their program, and traces that don't.
pub fn trace_examples()
    ensures meets { MeetsCounter (passed_on 3 (pos 5) ++ counted 8 9) }
    ensures other_value { ¬ (MeetsCounter (passed_on 3 (pos 6) ++ counted 8 9)) }
    ensures late_event { ¬ (MeetsCounter (passed_on 11 (pos 5) ++ counted 12 13)) }
    ensures no_event { ¬ (MeetsCounter []) }
    ensures no_end { ¬ (MeetsCounter (passed_on 3 (pos 5) ++ entry 8 first ∷ [])) }
    ensures same_time { ¬ (MeetsCounter (passed_on 3 (pos 5) ++ counted 3 9)) }
    ensures other_state { ¬ (MeetsCounter (passed_on 3 (pos 5) ++ entry 8 first ∷ entry 9 (end (pos 2 ∷ [])) ∷ [])) }

    // Two tasks, of which the second waits until 10 ticks after its release.
    ensures both { MeetsBoth (often_frame 0 2 3 4 ++ often_frame 1 10 11 12 ++ waiting_front 15 16 ++ often_frame 2 18 19 20 ++ shown_by 21 1 0 (end []) ∷ []) }
    ensures of_no_task { ¬ (MeetsBoth (shown_by 1 2 0 first ∷ often_frame 0 2 3 4 ++ often_frame 1 10 11 12 ++ waiting_front 15 16 ++ often_frame 2 18 19 20)) }
    ensures early_event { ¬ (MeetsBoth (often_frame 0 2 3 4 ++ waiting_front 9 16 ++ often_frame 2 18 19 20)) }
    ensures late_first { ¬ (MeetsBoth (often_frame 0 2 9 10)) }
    ensures no_first { ¬ (MeetsBoth (often_frame 0 2 3 4 ++ often_frame 1 10 11 12 ++ often_front 2 18)) }
    ensures other_frame { ¬ (MeetsBoth (often_frame 1 2 3 4)) }
{}
