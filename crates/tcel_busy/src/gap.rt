ghost use Rattle.std.specs.Prelude.{suc, ◌+◌, ◌^◌, ◌<◌, ◌≤◌, All, length};
ghost use Rattle.tcel_busy.specs.Releases.{AreNext, IsGap};
ghost use Rattle.tcel_demand.specs.Sound.{IsSoundPlan};
ghost use Rattle.tcel_demand.specs.Workload.{asked};

use tcel_demand::TaskPlan;

/// What the releases at one time ask for, in cycles, and the time of the next release.
#[derive(Clone, Copy, Debug)]
pub(crate) struct Gap {
    pub(crate) cycles: u64,
    pub(crate) until: u64,
}

/// Passes the releases of these plans at this time, where `next` has the next release of each.
pub(crate) fn pass_releases(plans: &[TaskPlan], next: &mut [u64], time: u64) -> Gap
    requires sound { All IsSoundPlan plans.now }
    requires room { length plans.now ≤ length next.old }
    requires time { time < 10 ^ 12 }
    requires cycles { asked plans.now (suc time) ≤ 10 ^ 12 }
    requires next { AreNext plans.now time next.old }
    ensures next { AreNext plans.now (suc time) next.new }
    ensures gap { IsGap plans.now time next.new result }
{
    let mut cycles = 0;
    let mut until = u64::MAX;
    for (task, plan) in plans.iter().enumerate() {
        if next[task] == time {
            next[task] += plan.period;
            cycles += plan.total;
        }
        until = until.min(next[task]);
    }
    Gap { cycles, until }
}
