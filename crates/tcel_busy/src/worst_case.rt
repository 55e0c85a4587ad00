ghost use Rattle.std.specs.Prelude.{◌≡◌, ◌*◌, ◌^◌, ◌<◌, ◌≤◌, ℕ, All, Some, length, slice_get};
ghost use Rattle.tcel_num.specs.Lateness.{IsWorst};
ghost use Rattle.tcel_num.specs.Plan.{Plan, Point as PlainPoint};
ghost use Rattle.tcel_demand.specs.Sound.{Fit, HasPoint};
ghost use Rattle.tcel_busy.specs.WorstStretches.{AreWorst, AreWorstWith, IsWorstWith};

use crate::stretch::Stretch;
use crate::walk::Walk;
use tcel_demand::{Point, TaskPlan, Worst};

/// The greatest response of the task's point over all frames for ever, and the first frame that has it,
/// found in the busy period that starts at time 0 (docs/analysis.md).
pub fn worst(plans: &[TaskPlan], task: usize, point: usize) -> Worst
    requires fit { (hyper : ℕ) × Fit plans.now hyper }
    requires in_range { HasPoint plans.now task point }
    ensures { IsWorst plans.now task point result.frame result.response }
{
    let prefix = prefix_of(plans, task, point);
    let mut walk = Walk::new(plans, task);
    let mut worst = NONE_YET;
    while let Some(stretch) = walk.next() {
        worst = worst_with(prefix, &stretch, worst);
    }
    worst
}

/// The same for each point of the task, in the plan's order, in one walk: `worst` has a place for each of
/// them.
pub fn worst_of_task(plans: &[TaskPlan], task: usize, worst: &mut [Worst])
    requires fit { (hyper : ℕ) × Fit plans.now hyper }
    requires in_range { task < length plans.now }
    requires places { (plan : Plan) → slice_get plans.now task ≡ Some plan
        → length worst.old ≡ length plan.points }
    ensures { AreWorst plans.now task worst.new }
{
    for one in worst.iter_mut() {
        *one = NONE_YET;
    }
    let plan = &plans[task];
    let points = plan.points.as_slice();
    let mut walk = Walk::new(plans, task);
    while let Some(stretch) = walk.next() {
        all_worst_with(points, &stretch, worst);
    }
}

const NONE_YET: Worst = Worst {
    frame: 0,
    response: 0,
};

fn prefix_of(plans: &[TaskPlan], task: usize, point: usize) -> u64
    requires { HasPoint plans.now task point }
    ensures { (plan : Plan) (what : PlainPoint) → slice_get plans.now task ≡ Some plan
        → slice_get plan.points point ≡ Some what → result ≡ what.prefix }
{
    let plan = &plans[task];
    let points = plan.points.as_slice();
    let point = &points[point];
    point.prefix
}

fn all_worst_with(points: &[Point], stretch: &Stretch, worst: &mut [Worst])
    requires places { length worst.old ≡ length points.now }
    requires prefixes { All (λ point. point.prefix ≤ 10 ^ 9) points.now }
    requires delay { stretch.now.delay ≤ 10 ^ 12 }
    ensures { AreWorstWith points.now stretch.now worst.old worst.new }
{
    for (place, point) in points.iter().enumerate() {
        worst[place] = worst_with(point.prefix, stretch, worst[place]);
    }
}

fn worst_with(prefix: u64, stretch: &Stretch, worst: Worst) -> Worst
    requires prefix { prefix ≤ 10 ^ 9 }
    requires delay { stretch.now.delay ≤ 10 ^ 12 }
    ensures { IsWorstWith prefix stretch.now worst result }
{
    let response = stretch.delay + prefix;
    if prefix <= stretch.from || stretch.to < prefix || response <= worst.response {
        return worst;
    }
    Worst {
        frame: stretch.frame,
        response,
    }
}
