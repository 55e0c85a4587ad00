ghost use Rattle.std.specs.Prelude.{◌≡◌, ◌^◌, ◌≤◌, ℤ, false, List, All, IfOk, MatchOption, length, map, nat_le};
ghost use Rattle.std.specs.Option.{option_map_or};
ghost use Rattle.tcel_num.specs.Hyperperiod.{periods_of};
ghost use Rattle.tcel_num.specs.Schedule.{released};
ghost use Rattle.tcel_core.specs.Promises.{Behavior};
ghost use Rattle.tcel_demand.specs.Sound.{AreSound, IsSoundPlan};
ghost use Rattle.tcel_judge.specs.Courses.{Stands, promised, shown};
ghost use Rattle.tcel_judge.specs.FirstBreach.{due_of, is_due, is_end};
ghost use Rattle.tcel_judge.specs.Gaps.{period_of, IsFirstMissing, Lacks, LacksNone, NoneLacks};

use crate::course::{Coming, ComingWhat, Course};
use crate::verdict::{Breach, Due};
use tcel_demand::{Demand, TaskPlan};
use tcel_num::NoMemory;

/// An entry that a task lacks: of which frame, from 0, and which one of it.
#[derive(Clone, Copy, Debug)]
pub(crate) struct Gap {
    pub(crate) frame: u64,
    pub(crate) what: Due,
}

/// What is missing after so many ticks: of the first task that lacks an entry that is due, the first such
/// entry, as a breach; None where no task lacks one (docs/analysis.md). Each course is as far as the trace
/// has led it, and of no use afterwards. There is a plan for each, with its period.
pub(crate) fn first_missing(
    courses: &mut [Course],
    plans: &[TaskPlan],
    ticks: u64,
) -> Result<Option<Breach>, NoMemory>
    requires stand { All Stands courses.old }
    requires sound { AreSound plans.now }
    requires periods { map period_of courses.old ≡ periods_of plans.now }
    requires ticks { ticks ≤ 10 ^ 7 }
    ensures { IfOk result (λ found. MatchOption found (NoneLacks plans.now ticks courses.old (length courses.old))
        (IsFirstMissing plans.now ticks courses.old)) }
{
    let schedule = schedule_after(plans, ticks);
    for (task, course) in courses.iter_mut().enumerate() {
        let plan = &plans[task];
        let count = schedule.served(task);
        let found = gap_of(course, plan, ticks, count)?;
        if let Some(gap) = found {
            return Ok(Some(Breach::Missing {
                task: task as u32,
                frame: gap.frame,
                what: gap.what,
            }));
        }
    }
    Ok(None)
}

/// The demand schedule after so many ticks.
fn schedule_after<'a>(plans: &'a [TaskPlan], ticks: u64) -> Demand<'a>
    requires sound { AreSound plans.now }
    requires ticks { ticks ≤ 10 ^ 7 }
    ensures { result ≡ record { plans = plans.now; ticks = ticks } }
{
    let mut schedule = Demand::new(plans);
    for _ in 0..ticks {
        schedule.tick();
    }
    schedule
}

/// The first entry that the task lacks after so many ticks, in which it was served so many cycles.
fn gap_of(
    course: &mut Course,
    plan: &TaskPlan,
    ticks: u64,
    count: u64,
) -> Result<Option<Gap>, NoMemory>
    requires stands { Stands course.old }
    requires sound { IsSoundPlan plan.now }
    requires period { period_of course.old ≡ plan.now.period }
    requires count { count ≤ released plan.now ticks }
    requires ticks { ticks ≤ 10 ^ 7 }
    ensures { IfOk result (λ found. MatchOption found (LacksNone ticks plan.now.total count course.old)
        (Lacks ticks plan.now.total count course.old)) }
{
    let last = ticks / plan.period;
    let mut coming = course.entry();
    while coming.frame <= last {
        if is_due(coming, ticks, plan.total, count) {
            return Ok(Some(Gap {
                frame: coming.frame,
                what: due_of(coming.number, coming.what),
            }));
        }
        course.pass()?;
        coming = course.entry();
    }
    Ok(None)
}

fn is_due(coming: Coming, ticks: u64, total: u64, count: u64) -> bool
    requires frame { coming.frame ≤ 10 ^ 7 }
    requires total { total ≤ 10 ^ 9 }
    ensures { (b : Behavior) → result ≡ is_due ticks total count (promised b coming) }
{
    is_over(coming.latest, ticks) || (is_end(coming.what) && (coming.frame + 1) * total <= count)
}

fn is_over(latest: Option<u128>, ticks: u64) -> bool
    ensures { result ≡ option_map_or (λ latest. nat_le latest ticks) latest false }
{
    match latest {
        Some(latest) => latest <= ticks as u128,
        None => false,
    }
}

fn is_end(what: ComingWhat) -> bool
    ensures { (state : List ℤ) → result ≡ is_end (shown state what) }
{
    match what {
        ComingWhat::End => true,
        _ => false,
    }
}

fn due_of(number: u64, what: ComingWhat) -> Due
    ensures { (state : List ℤ) → result ≡ due_of number (shown state what) }
{
    match what {
        ComingWhat::First => Due::First,
        ComingWhat::End => Due::End,
        _ => Due::Event { number },
    }
}
