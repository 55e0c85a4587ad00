ghost use Rattle.std.specs.Prelude.{◌≡◌, Some, slice_get};
ghost use Rattle.tcel_num.specs.Lateness.{IsWorst};
ghost use Rattle.tcel_num.specs.Plan.{Plan, Point};
ghost use Rattle.tcel_demand.specs.Sound.{Fit, HasPoint};
ghost use Rattle.tcel_demand.specs.WorstSteps.{IsWorstWith};

use crate::demand::Demand;
use crate::plan::{TaskPlan, Worst};
use crate::step::Step;

/// The greatest response of the task's point over all frames for ever, and the first frame that has it,
/// found by following the schedule through one hyperperiod of `hyper` ticks (docs/analysis.md).
pub fn worst_plain(plans: &[TaskPlan], hyper: u64, task: usize, point: usize) -> Worst
    requires fit { Fit plans.now hyper }
    requires in_range { HasPoint plans.now task point }
    ensures { IsWorst plans.now task point result.frame result.response }
{
    let prefix = prefix_of(plans, task, point);
    let mut schedule = Demand::new(plans);
    let mut worst = Worst {
        frame: 0,
        response: 0,
    };
    for _ in 0..hyper {
        if let Some(step) = schedule.step() {
            worst = worst_with(task, prefix, &step, worst);
        }
    }
    worst
}

fn prefix_of(plans: &[TaskPlan], task: usize, point: usize) -> u64
    requires { HasPoint plans.now task point }
    ensures { (plan : Plan) (what : Point) → slice_get plans.now task ≡ Some plan
        → slice_get plan.points point ≡ Some what → result ≡ what.prefix }
{
    let plan = &plans[task];
    let points = plan.points.as_slice();
    let point = &points[point];
    point.prefix
}

fn worst_with(task: usize, prefix: u64, step: &Step, worst: Worst) -> Worst
    ensures { IsWorstWith task prefix step.now worst result }
{
    if step.task != task || step.cycles != prefix || step.response <= worst.response {
        return worst;
    }
    Worst {
        frame: step.frame,
        response: step.response,
    }
}
