ghost use Rattle.std.specs.Prelude.{◌≡◌, ◌≤◌, ◌^◌, All, IfErr, IfOk, length, map};
ghost use Rattle.tcel_num.specs.Hyperperiod.{IsLeastCommonMultiple};
ghost use Rattle.tcel_core.specs.Plain.{plain_task};
ghost use Rattle.tcel_core.specs.Sound.{IsSoundTask};
ghost use Rattle.tcel_target.specs.declared.costs.Costs.{Costs};
ghost use Rattle.tcel_driver.specs.Forms.{frames_within, task_periods};
ghost use Rattle.tcel_driver.specs.Refusals.{ForbidsForms, HavePlans};

use crate::refused::Refused;
use std::alloc::Global;
use tcel_core::CoreTask;
use tcel_num::lcm_within;

// the most ticks of a hyperperiod
const MOST_TICKS: u64 = 1_000_000_000_000;

/// The least common multiple of the periods.
pub(crate) fn hyperperiod_of(alloc: Global, tasks: &[CoreTask]) -> Result<u64, Refused>
    requires { All (λ task. IsSoundTask (plain_task task)) tasks.now }
    ensures period { IfOk result
        (IsLeastCommonMultiple (task_periods (map plain_task tasks.now))) }
    ensures most { IfOk result (λ hyper. hyper ≤ 10 ^ 12) }
    ensures refused { IfErr result (λ cause. (costs : Costs)
        → HavePlans (map plain_task tasks.now) costs
        → ForbidsForms (map plain_task tasks.now) costs cause) }
{
    let mut periods = Vec::new(alloc);
    let mut hyper = 1;
    for (number, task) in tasks.iter().enumerate() {
        periods.push(task.period)?;
        let Some(multiple) = lcm_within(&periods, MOST_TICKS) else {
            return Err(Refused::HyperTooLong { task: number });
        };
        hyper = multiple;
    }
    Ok(hyper)
}

/// The frames that the tasks release in so many ticks.
pub(crate) fn frames_within(tasks: &[CoreTask], hyper: u64) -> u64
    requires sound { All (λ task. IsSoundTask (plain_task task)) tasks.now }
    requires few { length tasks.now ≤ 16 }
    requires most { hyper ≤ 10 ^ 12 }
    ensures { result ≡ frames_within (map plain_task tasks.now) hyper }
{
    let mut frames = 0;
    for task in tasks {
        frames += hyper / task.period;
    }
    frames
}
