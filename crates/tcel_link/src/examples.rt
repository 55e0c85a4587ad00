ghost use Rattle.std.specs.Prelude.{◌≡◌, [], ◌∷◌, codes, pos, Ok, Err, true, false};
ghost use Rattle.tcel_link.specs.Examples.{consumer, counting, doubling, echoing, last_task, link, looping, moved, passed_on, passing, producer};
ghost use Rattle.tcel_link.specs.Examples.{no_values, passed_trace, second_receive, sending_once, streams, text, twice, two_tasks};
ghost use Rattle.tcel_link.specs.Traces.{IsExplained, carried_by};
ghost use Rattle.tcel_core.specs.declared.event.EventKind.TheVariants.{Receive, Send};
ghost use Rattle.tcel_link.specs.Conditions.{FitsInputs, IsInRange, LeadApart};
ghost use Rattle.tcel_link.specs.Receives.{receives, receives_in_loop};
ghost use Rattle.tcel_link.specs.Linked.{derived, linked_frame};
ghost use Rattle.tcel_link.specs.Links.{links_in};
ghost use Rattle.tcel_link.specs.declared.fail.LinkFail.TheVariants.{BadLine, NoOutput, NoInput, InputTwice, InLoop};

/// What some texts say for the tasks p and c.
pub fn link_examples()
    ensures one { links_in passed_on (text (codes "# from p" ∷ [] ∷ codes " p r c j" ∷ []))
        ≡ Ok (link 0 1 1 1 ∷ []) }
    ensures itself { links_in passed_on (text (codes "c o c i" ∷ codes "c o p i" ∷ []))
        ≡ Ok (link 1 0 1 0 ∷ link 1 0 0 0 ∷ []) }
    ensures none { links_in passed_on [] ≡ Ok [] }
    ensures three_words { links_in passed_on (codes "q q q") ≡ Err (BadLine 1) }
    ensures five_words { links_in passed_on (codes "p o c i i") ≡ Err (BadLine 1) }
    ensures task { links_in passed_on (codes "q o c i") ≡ Err (NoOutput 1) }
    ensures output { links_in passed_on (codes "p i q i") ≡ Err (NoOutput 1) }
    ensures other { links_in passed_on (codes "p o q i") ≡ Err (NoInput 1) }
    ensures input { links_in passed_on (codes "p o c o") ≡ Err (NoInput 1) }
    ensures again { links_in passed_on (text (codes "p o c i" ∷ codes "c r c i" ∷ []))
        ≡ Err (InputTwice 2) }
    ensures first { links_in passed_on (text (codes "p o c i" ∷ codes "p o c x" ∷ codes "p" ∷ []))
        ≡ Err (NoInput 2) }
    ensures looped { links_in (two_tasks (producer 20 20 counting) (consumer 20 20 looping)) (codes "p o c i") ≡ Err (InLoop 1) }
    ensures unlooped { links_in (two_tasks (producer 20 20 counting) (consumer 20 20 looping)) (codes "p o c j") ≡ Ok (link 0 0 1 1 ∷ []) }
{}

/// Receives that stand in bodies, and what is asked of links and scripts.
pub fn condition_examples()
    ensures two { receives twice 0 ≡ 2 }
    ensures none { receives twice 1 ≡ 0 }
    ensures looped { receives_in_loop looping 0 false ≡ true }
    ensures straight { receives_in_loop twice 0 false ≡ false }
    ensures inside { receives_in_loop twice 0 true ≡ true }
    ensures other { receives_in_loop looping 1 false ≡ false }
    ensures range { IsInRange passed_on (link 0 1 1 1) }
    ensures no_output { ¬ (IsInRange passed_on (link 0 2 1 1)) }
    ensures no_task { ¬ (IsInRange passed_on (link 0 1 2 1)) }
    ensures apart { LeadApart (link 0 0 1 0) (link 0 0 1 1) }
    ensures together { ¬ (LeadApart (link 0 0 1 0) (link 1 1 1 0)) }
    ensures fits { FitsInputs passed_on (streams (([], []) ∷ (pos 5 ∷ [], []) ∷ [])) }
    ensures few { ¬ (FitsInputs passed_on (streams (([], []) ∷ []))) }
{}

/// What linked inputs receive: p sends 1, 2 and so on, one value a frame.
pub fn linked_examples()
    // The value that p sends behind 20 isn't taken at 20, since its deadline is 40.
    ensures deadline { derived passed_on (link 0 0 1 0 ∷ []) (streams (([], []) ∷ ([], []) ∷ [])) 40
        ≡ streams (([], []) ∷ (pos 0 ∷ pos 1 ∷ [], []) ∷ []) }
    // The frame that is released at 20.
    ensures frame { linked_frame passed_on (link 0 0 1 0 ∷ []) (streams (([], []) ∷ (pos 5 ∷ [], []) ∷ [])) 1 1
        ≡ record { events = moved Receive 0 (pos 1) 20 ∷ moved Send 1 (pos 1) 20 ∷ []; state = pos 0 ∷ [] } }
    // At 10 the deadline of the frame from 0 has come, and at 30 that of the frame from 20.
    ensures often { derived (two_tasks (producer 20 10 counting) (consumer 10 15 passing)) (link 0 0 1 0 ∷ []) (streams (([], []) ∷ ([], []) ∷ [])) 31
        ≡ streams (([], []) ∷ (pos 0 ∷ pos 1 ∷ pos 1 ∷ pos 2 ∷ [], []) ∷ []) }
    // A frame that is released at the last tick isn't run.
    ensures ended { derived (two_tasks (producer 20 10 counting) (consumer 10 15 passing)) (link 0 0 1 0 ∷ []) (streams (([], []) ∷ ([], []) ∷ [])) 30
        ≡ streams (([], []) ∷ (pos 0 ∷ pos 1 ∷ pos 1 ∷ [], []) ∷ []) }
    // A deadline above the period: at 20 that of the frame from 0 has come, which is 15, and that of the frame from 10 hasn't.
    ensures late { derived (two_tasks (producer 10 15 counting) (consumer 10 10 passing)) (link 0 0 1 0 ∷ []) (streams (([], []) ∷ ([], []) ∷ [])) 40
        ≡ streams (([], []) ∷ (pos 0 ∷ pos 0 ∷ pos 1 ∷ pos 2 ∷ [], []) ∷ []) }
    // The values that a linked input had are not used, and all others stay.
    ensures own { derived passed_on (link 0 0 1 0 ∷ [])
        (streams ((pos 3 ∷ [], []) ∷ (pos 5 ∷ pos 6 ∷ pos 7 ∷ [], pos 8 ∷ []) ∷ [])) 40
        ≡ streams ((pos 3 ∷ [], []) ∷ (pos 0 ∷ pos 1 ∷ [], pos 8 ∷ []) ∷ []) }
    // A consumer that receives twice has the same value twice.
    ensures both { derived (two_tasks (producer 20 20 counting) (consumer 20 20 twice)) (link 0 0 1 0 ∷ []) (streams (([], []) ∷ (pos 5 ∷ [], []) ∷ [])) 40
        ≡ streams (([], []) ∷ (pos 0 ∷ pos 0 ∷ pos 1 ∷ pos 1 ∷ [], []) ∷ []) }
    // Of two values of a frame the last one counts, and a value to another output doesn't.
    ensures last { derived (two_tasks (producer 20 20 doubling) (consumer 20 20 passing)) (link 0 0 1 0 ∷ []) (streams (([], []) ∷ ([], []) ∷ [])) 60
        ≡ streams (([], []) ∷ (pos 0 ∷ pos 11 ∷ pos 12 ∷ [], []) ∷ []) }
    // A value stays until the next one, over frames that send nothing.
    ensures stays { derived (two_tasks (producer 20 20 sending_once) (consumer 20 20 passing)) (link 0 0 1 0 ∷ []) (streams (([], []) ∷ ([], []) ∷ [])) 60
        ≡ streams (([], []) ∷ (pos 0 ∷ pos 9 ∷ pos 9 ∷ [], []) ∷ []) }
    // A task that feeds itself.
    ensures itself { derived (producer 10 10 echoing ∷ []) (link 0 0 0 0 ∷ []) (streams (([], []) ∷ [])) 40
        ≡ streams ((pos 0 ∷ pos 1 ∷ pos 2 ∷ pos 3 ∷ [], []) ∷ []) }
    // An output that feeds two inputs of two tasks.
    ensures two_inputs { derived (producer 10 10 counting ∷ consumer 10 10 passing ∷ last_task 20 20 twice ∷ []) (link 0 0 2 0 ∷ link 0 0 1 0 ∷ [])
        (streams (([], []) ∷ ([], []) ∷ ([], []) ∷ [])) 30
        ≡ streams (([], []) ∷ (pos 0 ∷ pos 1 ∷ pos 2 ∷ [], []) ∷ (pos 0 ∷ pos 0 ∷ pos 2 ∷ pos 2 ∷ [], []) ∷ []) }
    // A chain of three.
    ensures chain { derived (producer 10 10 counting ∷ consumer 10 10 passing ∷ last_task 10 10 passing ∷ []) (link 0 0 1 0 ∷ link 1 1 2 0 ∷ [])
        (streams (([], []) ∷ ([], []) ∷ ([], []) ∷ [])) 30
        ≡ streams (([], []) ∷ (pos 0 ∷ pos 1 ∷ pos 2 ∷ [], []) ∷ (pos 0 ∷ pos 0 ∷ pos 1 ∷ [], []) ∷ []) }
{}

/// What traces show as sent and as received: p sends 1 in its frame from 0, and 2 in the one from 20, each by
/// the frame's deadline, 20 ticks on (docs/language.md, "Linked tasks").
pub fn trace_examples()
    ensures none { carried_by passed_on (link 0 0 1 0) 19 (passed_trace (pos 1)) ≡ [] }
    ensures one { carried_by passed_on (link 0 0 1 0) 39 (passed_trace (pos 1)) ≡ pos 1 ∷ [] }
    ensures both { carried_by passed_on (link 0 0 1 0) 40 (passed_trace (pos 1)) ≡ pos 1 ∷ pos 2 ∷ [] }
    ensures other { carried_by passed_on (link 0 1 1 0) 40 (passed_trace (pos 1)) ≡ [] }
    ensures explained { IsExplained passed_on (link 0 0 1 0 ∷ []) no_values (passed_trace (pos 1)) (second_receive (pos 1)) (link 0 0 1 0) 20 (pos 1) }
    // The value that p sent at 26 isn't what c receives at 29.
    ensures too_new { ¬ (IsExplained passed_on (link 0 0 1 0 ∷ []) no_values (passed_trace (pos 2)) (second_receive (pos 2)) (link 0 0 1 0) 20 (pos 2)) }
    // A trace that doesn't show what was sent explains nothing.
    ensures not_shown { ¬ (IsExplained passed_on (link 0 0 1 0 ∷ []) no_values (second_receive (pos 0)) (second_receive (pos 0)) (link 0 0 1 0) 20 (pos 0)) }
    // Nor does one that shows it behind the receive.
    ensures behind { ¬ (IsExplained passed_on (link 0 0 1 0 ∷ []) no_values (passed_trace (pos 1)) (passed_trace (pos 1)) (link 0 0 1 0) 20 (pos 1)) }
{}
