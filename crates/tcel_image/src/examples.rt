ghost use Rattle.std.specs.Prelude.{◌≡◌, [], true, false, codes};
ghost use Rattle.tcel_num.specs.Entry.{first, end};
ghost use Rattle.tcel_image.specs.Machine.{trace};
ghost use Rattle.tcel_image.specs.TraceText.{text};
ghost use Rattle.tcel_image.specs.Validity.{has_flaw};
ghost use Rattle.tcel_image.specs.declared.flaw.FlawKind.TheVariants as kinds;
ghost use Rattle.tcel_image.specs.Examples.{echo, echo_streams, echo_trace, held, held_trace, started, started_trace, busy, busy_streams, busy_trace, preempted, preempted_trace, shifting, flawed, flaw};

/// Worked examples of the machine's definitions (docs/machine.md).
pub fn machine_examples()
    ensures echo { trace echo echo_streams 10 ≡ echo_trace }
    ensures echo_text { text echo (trace echo echo_streams 10) ≡ codes "1 t 0 receive s 5\n3 t 0 send o 5\n8 t 0 first\n9 t 0 end n=1\n" }
    ensures held { trace held [] 24 ≡ held_trace }
    ensures started { trace started [] 29 ≡ started_trace }
    ensures busy { trace busy busy_streams 420 ≡ busy_trace }
    ensures preempted { trace preempted [] 12 ≡ preempted_trace }
    ensures shifted { text shifting (trace shifting [] 6) ≡ codes "5 t 0 first\n6 t 0 end a=[1,1,2] b=true\n" }
    ensures period { has_flaw flawed (flaw kinds.BadPeriod 0) ≡ true }
    ensures jump { has_flaw flawed (flaw kinds.JumpOut 1) ≡ true }
    ensures no_flaw { has_flaw flawed (flaw kinds.BadDepth 1) ≡ false }
{}
