ghost use Rattle.std.specs.Prelude.{◌≡◌, [], ◌∷◌};
ghost use Rattle.tcel_num.specs.Plan.{frame};
ghost use Rattle.tcel_num.specs.Schedule.{served_counts};
ghost use Rattle.tcel_num.specs.Lateness.{IsNeverLate, IsFirstLate, IsWorst};
ghost use Rattle.tcel_demand.specs.Examples.{two_plans, SlowResponds};
ghost use Rattle.tcel_demand.specs.Sound.{Fit};
ghost use Rattle.tcel_demand.specs.Ticks.{IsIdle, Serves};
ghost use Rattle.tcel_demand.specs.Workload.{asked};

/// A worked example: two plans over 700 ticks, and for ever (docs/analysis.md).
pub fn lateness_example()
    ensures served { served_counts (two_plans 118) 700 ≡ 260 ∷ 434 ∷ [] }
    ensures responses { SlowResponds 118 0 (114 ∷ 102 ∷ 116 ∷ 104 ∷ 118 ∷ 106 ∷ 94 ∷ []) }
    ensures worst { IsWorst (two_plans 118) 1 0 4 118 }
    ensures in_time { IsNeverLate (two_plans 118) }
    ensures late { IsFirstLate (two_plans 117) (record { task = 1; frame = 4; point = 0; name = frame; response = 118; bound = 117 }) }
{}

/// More of the same two plans: which tick serves whom, what is asked before a time, and over which
/// hyperperiod they fit.
pub fn schedule_example()
    ensures asked { asked (two_plans 118) 100 ≡ 114 }
    ensures asked_later { asked (two_plans 118) 101 ≡ 176 }
    ensures serves { Serves (two_plans 118) 26 1 }
    ensures serves_highest { Serves (two_plans 118) 25 1 → ⊥ }
    ensures idle { IsIdle (two_plans 118) 694 }
    ensures not_idle { IsIdle (two_plans 118) 693 → ⊥ }
    ensures fit { Fit (two_plans 118) 700 }
    ensures no_hyperperiod { Fit (two_plans 118) 350 → ⊥ }
    ensures not_sound { Fit (two_plans 0) 700 → ⊥ }
{}
