ghost use Rattle.std.specs.Prelude.{◌≡◌, ◌≤◌, [], ◌∷◌, All};
ghost use Rattle.tcel_num.specs.Lateness.{IsNeverLate};
ghost use Rattle.tcel_num.specs.Schedule.{served_counts};
ghost use Rattle.tcel_core.specs.Scope.{TaskFits};
ghost use Rattle.tcel_target.specs.Costs.{unit_costs};
ghost use Rattle.tcel_image.specs.Machine.{trace};
ghost use Rattle.tcel_cost.specs.Examples.{late_plans, overrunning, overrunning_plans, pair, pair_plans, sliced_counter, sliced_counter_plan, windowed_plan, windowed_task};
ghost use Rattle.tcel_code.specs.Code.{frame_code};
ghost use Rattle.tcel_code.specs.Counters.{counters_of};
ghost use Rattle.tcel_code.specs.Domination.{AreBoundBy, counting};
ghost use Rattle.tcel_code.specs.Examples.{loops_body, loops_code, loops_first, loops_rest, loops_vars, overrunning_streams, overrunning_trace, pair_streams, pair_trace, sliced_image, sliced_streams, sliced_trace, waiting};
ghost use Rattle.tcel_code.specs.Layout.{image_of, layout};
ghost use Rattle.tcel_code.specs.PartsFit.{PartsFit};
ghost use Rattle.tcel_code.specs.Theorem.{RunsMeet, RunsOfFormsMeet};

/// A task with a `do` block, in time, and its runs (docs/analysis.md).
pub fn window_examples()
    ensures fits { All TaskFits (windowed_task ∷ []) }
    ensures in_time { IsNeverLate (windowed_plan ∷ []) }
    ensures meets { RunsMeet (windowed_task ∷ []) unit_costs (windowed_plan ∷ []) }

    // The points that bind the first event of its block: `before 1` with the prefix 4 and `within 1` with 6.
    ensures bound { AreBoundBy windowed_plan.points (λ prefix. prefix ≤ 6) waiting }
    ensures no_sooner { ¬ (AreBoundBy windowed_plan.points (λ prefix. prefix ≤ 5) waiting) }
{}

/// Two tasks that use every tick, of which the higher waits in a block (docs/analysis.md).
pub fn pair_example()
    ensures fits { All TaskFits pair }
    ensures in_time { IsNeverLate pair_plans }
    ensures meets { RunsMeet pair unit_costs pair_plans }
    ensures trace { trace (image_of pair unit_costs) pair_streams 20 ≡ pair_trace }
{}

/// A task that is sliced: its image, its runs, and one of them (docs/machine.md).
pub fn sliced_example()
    ensures fits { All PartsFit (sliced_counter ∷ []) }
    ensures image { layout (sliced_counter ∷ []) unit_costs ≡ sliced_image }
    ensures in_time { IsNeverLate (sliced_counter_plan ∷ []) }
    ensures meets { RunsOfFormsMeet (sliced_counter ∷ []) unit_costs (sliced_counter_plan ∷ []) }
    ensures trace { trace (layout (sliced_counter ∷ []) unit_costs) sliced_streams 10 ≡ sliced_trace }
{}

/// Two tasks of which the lower one is late as a whole, and in time where it is sliced, though its rest runs past its
/// period (docs/analysis.md).
pub fn overrunning_example()
    ensures fits { All PartsFit overrunning }
    ensures late { ¬ (IsNeverLate late_plans) }
    ensures in_time { IsNeverLate overrunning_plans }
    ensures meets { RunsOfFormsMeet overrunning unit_costs overrunning_plans }
    ensures trace { trace (layout overrunning unit_costs) overrunning_streams 30 ≡ overrunning_trace }

    // The ticks that the frames in progress have run: after 4 ticks the higher task has ended one, and after 11 the lower one.
    ensures ran_at_3 { (counting (layout overrunning unit_costs) overrunning_streams 3).ran ≡ 3 ∷ 0 ∷ [] }
    ensures ran_at_8 { (counting (layout overrunning unit_costs) overrunning_streams 8).ran ≡ 0 ∷ 4 ∷ [] }
    ensures ran_at_11 { (counting (layout overrunning unit_costs) overrunning_streams 11).ran ≡ 0 ∷ 2 ∷ [] }
    ensures served_at_11 { served_counts overrunning_plans 11 ≡ 4 ∷ 7 ∷ [] }
{}

/// The counters of loops that stand in different parts (docs/machine.md).
pub fn counters_example()
    ensures code { frame_code loops_first loops_rest loops_vars (counters_of loops_body loops_vars) ≡ loops_code }
{}
