ghost use Rattle.std.specs.Prelude.{◌≡◌, ◌-◌, ◌^◌, ◌<◌, ◌≤◌, ◌&&◌, ℕ, length, nat_le, nat_lt, position, IfSome, IfNone, MatchOption};
ghost use Rattle.tcel_num.specs.Lateness.{IsFirstLate, IsNeverLate};
ghost use Rattle.tcel_demand.specs.Sound.{Fit, IsSoundPlan};
ghost use Rattle.tcel_busy.specs.LateStretches.{IsLateIn, IsLateStretch, IsRoom, IsFirstOfTask, IsNeverLateTask};

use crate::stretch::Stretch;
use crate::walk::Walk;
use tcel_demand::{Late, Point, TaskPlan};

// more than any bound and total together
const MOST_ROOM: u64 = 2_000_000_000;

/// The first late point over all frames for ever, found in the busy periods that start at time 0; None
/// where no point is ever late (docs/analysis.md). Its cost grows with the frames of the busy periods
/// and with the points, never with the ticks.
pub fn late(plans: &[TaskPlan]) -> Option<Late>
    requires { (hyper : ℕ) × Fit plans.now hyper }
    ensures { MatchOption result (IsNeverLate plans.now) (IsFirstLate plans.now) }
{
    for task in 0..plans.len() {
        if let Some(late) = late_of_task(plans, task) {
            return Some(late);
        }
    }
    None
}

fn late_of_task(plans: &[TaskPlan], task: usize) -> Option<Late>
    requires fit { (hyper : ℕ) × Fit plans.now hyper }
    requires in_range { task < length plans.now }
    ensures { MatchOption result (IsNeverLateTask plans.now task) (IsFirstOfTask plans.now task) }
{
    let plan = &plans[task];
    let room = room_of(plan);
    let mut walk = Walk::new(plans, task);
    let mut first = None;
    while let Some(stretch) = walk.next() {
        if let Some(late) = late_in(plan, room, task, &stretch) {
            first = Some(late.or_earlier(first));
        }
    }
    first
}

// A frame that is done within this delay after its release has no late point.
fn room_of(plan: &TaskPlan) -> u64
    requires { IsSoundPlan plan.now }
    ensures { IsRoom plan.now result }
{
    let total = plan.total;
    let points = plan.points.as_slice();
    let mut room = MOST_ROOM;
    for point in points {
        room = room.min(point.bound + total - point.prefix);
    }
    room
}

fn late_in(plan: &TaskPlan, room: u64, task: usize, stretch: &Stretch) -> Option<Late>
    requires sound { IsSoundPlan plan.now }
    requires room { IsRoom plan.now room }
    requires delay { stretch.now.delay ≤ 10 ^ 12 }
    requires within { stretch.now.to ≤ plan.now.total }
    ensures found { IfSome result (IsLateStretch plan.now task stretch.now) }
    ensures none { IfNone result ((place : ℕ) → IsLateIn plan.now stretch.now place → ⊥) }
{
    if stretch.delay + plan.total <= room {
        return None;
    }
    let points = plan.points.as_slice();
    let place = first_late(points, stretch)?;
    let point = &points[place];
    Some(Late {
        task,
        frame: stretch.frame,
        point: place,
        name: point.name,
        response: stretch.delay + point.prefix,
        bound: point.bound,
    })
}

fn first_late(points: &[Point], stretch: &Stretch) -> Option<usize>
    ensures { result ≡ position (λ point. nat_lt stretch.now.from point.prefix
        && nat_le point.prefix stretch.now.to
        && nat_lt (point.bound - stretch.now.delay) point.prefix) points.now }
{
    points.iter().position(|point| {
        stretch.from < point.prefix
            && point.prefix <= stretch.to
            && point.bound.saturating_sub(stretch.delay) < point.prefix
    })
}
