ghost use Rattle.std.specs.Prelude.{ℕ, ◌==◌, ◌≡◌, ◌&&◌, nat_lt, position, IfSome, IfNone, MatchOption};
ghost use Rattle.tcel_num.specs.Lateness.{IsFirstLate, IsNeverLate};
ghost use Rattle.tcel_demand.specs.LateSteps.{AreSoonest, IsLateIn, IsLateStep, IsSoonest};
ghost use Rattle.tcel_demand.specs.Sound.{AreSound, Fit};

use crate::demand::Demand;
use crate::plan::{Late, Point, TaskPlan};
use crate::step::Step;

/// The first late point over all frames for ever, found by following the schedule through one hyperperiod
/// of `hyper` ticks; None where no point is ever late (docs/analysis.md).
pub fn late_plain(plans: &[TaskPlan], hyper: u64) -> Option<Late>
    requires { Fit plans.now hyper }
    ensures { MatchOption result (IsNeverLate plans.now) (IsFirstLate plans.now) }
{
    let soonest = soonest_bounds(plans);
    let mut schedule = Demand::new(plans);
    let mut first = None;
    for _ in 0..hyper {
        if let Some(step) = schedule.step() {
            if let Some(late) = late_in(&plans[step.task], soonest[step.task], &step) {
                first = Some(late.or_earlier(first));
            }
        }
    }
    first
}

// of each task a bound that none of its points is below
fn soonest_bounds(plans: &[TaskPlan]) -> [u64; 16]
    requires { AreSound plans.now }
    ensures { AreSoonest plans.now result }
{
    let mut soonest = [0; 16];
    for (task, plan) in plans.iter().enumerate() {
        soonest[task] = soonest_bound(plan);
    }
    soonest
}

fn soonest_bound(plan: &TaskPlan) -> u64
    ensures { IsSoonest plan.now result }
{
    let points = plan.points.as_slice();
    let mut soonest = u64::MAX;
    for point in points {
        soonest = soonest.min(point.bound);
    }
    soonest
}

fn late_in(plan: &TaskPlan, soonest: u64, step: &Step) -> Option<Late>
    requires { IsSoonest plan.now soonest }
    ensures found { IfSome result (IsLateStep plan.now step.now) }
    ensures none { IfNone result ((place : ℕ) → IsLateIn plan.now step.now place → ⊥) }
{
    if step.response <= soonest {
        return None;
    }
    let points = plan.points.as_slice();
    let place = first_late(points, step.cycles, step.response)?;
    let point = &points[place];
    Some(Late {
        task: step.task,
        frame: step.frame,
        point: place,
        name: point.name,
        response: step.response,
        bound: point.bound,
    })
}

fn first_late(points: &[Point], cycles: u64, response: u64) -> Option<usize>
    ensures { result ≡ position (λ point. (point.prefix == cycles) && nat_lt point.bound response)
        points.now }
{
    points
        .iter()
        .position(|point| point.prefix == cycles && point.bound < response)
}
