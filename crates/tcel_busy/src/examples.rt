ghost use Rattle.tcel_busy.specs.BusyPeriod.{IsBusyEnd, IsLeastFixed};
ghost use Rattle.tcel_demand.specs.Examples.{two_plans};

/// A worked example: the busy period of two plans, and when the first frame of the second ends.
pub fn busy_example()
    ensures end { IsBusyEnd (two_plans 118) 1 694 }
    ensures not_sooner { IsBusyEnd (two_plans 118) 1 114 → ⊥ }
    ensures first_frame { IsLeastFixed (two_plans 118) 1 62 114 }
    ensures not_alone { IsLeastFixed (two_plans 118) 1 62 62 → ⊥ }
{}
