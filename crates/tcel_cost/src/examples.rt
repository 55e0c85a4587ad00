ghost use Rattle.std.specs.Prelude.{[], ◌∷◌, None, Some};
ghost use Rattle.tcel_core.specs.Examples.{for_body, while_body, loop_vars};
ghost use Rattle.tcel_target.specs.Costs.{unit_costs};
ghost use Rattle.tcel_cost.specs.Examples.{branching_body, branching_vars, late_plans, often_task, overrunning, overrunning_plans, pair, pair_plans, rare_task, sliced_counter, sliced_counter_plan, windowed_plan, windowed_task, worked_forms, worked_plans};
ghost use Rattle.tcel_target.specs.Examples.{many_costs};
ghost use Rattle.tcel_cost.specs.Plans.{ArePlans};
ghost use Rattle.tcel_cost.specs.Walks.{IsFirstCount, IsQuietCount, IsTotal, Walks};
ghost use Rattle.tcel_cost.specs.WholePlan.{AreWholePlans};

/// What bodies cost (docs/analysis.md).
pub fn cost_examples()
    ensures branching { IsTotal (Walks branching_body branching_vars unit_costs) 0 15 }

    // Loops behind 15 ticks of a frame's start, on a processor where each cost is another: no walk has an event.
    ensures for_total { IsTotal (Walks for_body loop_vars many_costs) 15 118 }
    ensures for_quiet { IsQuietCount (Walks for_body loop_vars many_costs) 15 (Some 118) }
    ensures for_first { IsFirstCount (Walks for_body loop_vars many_costs) 15 None }
    ensures while_total { IsTotal (Walks (while_body 5) loop_vars many_costs) 15 224 }
{}

/// The plan of a task with a `do` block, and the plans of sets, whole and sliced (docs/analysis.md).
pub fn plan_examples()
    ensures windowed { AreWholePlans (windowed_task ∷ []) unit_costs (windowed_plan ∷ []) }
    ensures pair { AreWholePlans pair unit_costs pair_plans }
    ensures sliced { ArePlans (sliced_counter ∷ []) unit_costs (sliced_counter_plan ∷ []) }
    ensures overrunning { ArePlans overrunning unit_costs overrunning_plans }
    ensures worked { ArePlans worked_forms unit_costs worked_plans }
    ensures late { AreWholePlans (rare_task ∷ often_task ∷ []) unit_costs late_plans }
{}
