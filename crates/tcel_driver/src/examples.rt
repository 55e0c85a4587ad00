ghost use Rattle.std.specs.Prelude.{[], ◌∷◌};
ghost use Rattle.tcel_target.specs.Costs.{unit_costs};
ghost use Rattle.tcel_driver.specs.Choice.{Fits, IsChosen};
ghost use Rattle.tcel_driver.specs.Examples.{branching_parts, branching_sliced, branching_task};
ghost use Rattle.tcel_driver.specs.Refusals.{IsOverloaded, IsTooDear};

/// A task whose frames take 4 cycles as a whole and 2 sliced: each 3 ticks it is sliced, and each tick it
/// asks for too much in both forms (docs/analysis.md).
pub fn choice_examples()
    ensures chosen { IsChosen (branching_task 3 ∷ []) unit_costs 1
        (branching_sliced 3 ∷ []) (branching_parts ∷ []) }
    ensures not_whole { ¬ (Fits (branching_task 3 ∷ []) unit_costs (branching_parts ∷ []) 0) }
    ensures overload { IsOverloaded (branching_task 1 ∷ []) unit_costs 2 1 }
    ensures not_dear { ¬ (IsTooDear (branching_task 3 ∷ []) unit_costs 0 4) }
{}
