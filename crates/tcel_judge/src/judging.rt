ghost use Rattle.std.specs.Prelude.{◌≡◌, ◌≢◌, ◌≤◌, [], All, AllPairs, IfOk, length, map};
ghost use Rattle.tcel_core.specs.Plain.{plain_set, plain_task};
ghost use Rattle.tcel_core.specs.Sound.{IsSoundSet, IsSoundTask};
ghost use Rattle.tcel_demand.specs.Sound.{AreSound};
ghost use Rattle.tcel_judge.specs.Courses.{HaveTaken, judged};
ghost use Rattle.tcel_judge.specs.FirstBreach.{Says, judged_of};
ghost use Rattle.tcel_num.specs.Hyperperiod.{periods_of};

use crate::course::Course;
use crate::lines::first_breach;
use crate::missing::first_missing;
use crate::verdict::Verdict;
use std::alloc::Global;
use tcel_core::{CoreTask, Set};
use tcel_demand::TaskPlan;
use tcel_num::NoMemory;
use tcel_script::Script;
use tcel_trace::TraceLine;

/// What is said of a trace of so many ticks, at most 10,000,000: whether it is one of the set's tasks on a
/// script with a stream for each of their inputs, by these plans, one a task with its period, and if not, its
/// first breach (docs/analysis.md). The trace may come from anywhere.
pub fn judge(
    alloc: Global,
    set: &Set,
    plans: &[TaskPlan],
    script: &Script,
    ticks: u64,
    trace: &[TraceLine],
) -> Result<Verdict, NoMemory>
    requires sound { IsSoundSet (plain_set set.now) }
    requires streams { length script.now ≡ length set.now.tasks }
    requires plans { AreSound plans.now }
    requires periods { map (λ task. task.period) (plain_set set.now) ≡ periods_of plans.now }
    requires ticks { ticks ≤ 10000000 }
    ensures { IfOk result (Says (judged_of (plain_set set.now) script.now) plans.now ticks trace.now) }
{
    let mut courses = courses_of(alloc, set.tasks.as_slice(), script)?;
    verdict_of(&mut courses, plans, ticks, trace)
}

/// What is said of a trace of so many ticks, by the courses of tasks before their first entries.
fn verdict_of(
    courses: &mut [Course],
    plans: &[TaskPlan],
    ticks: u64,
    trace: &[TraceLine],
) -> Result<Verdict, NoMemory>
    requires start { HaveTaken (map judged courses.old) [] courses.old }
    requires names { AllPairs ◌≢◌ (map (λ j. j.task.name) (map judged courses.old)) }
    requires plans { AreSound plans.now }
    requires periods { map (λ j. j.does.period) (map judged courses.old) ≡ periods_of plans.now }
    requires ticks { ticks ≤ 10000000 }
    ensures { IfOk result (Says (map judged courses.old) plans.now ticks trace.now) }
{
    if let Some(breach) = first_breach(courses, trace)? {
        return Ok(Verdict::No(breach));
    }
    match first_missing(courses, plans, ticks)? {
        None => Ok(Verdict::Yes),
        Some(breach) => Ok(Verdict::No(breach)),
    }
}

/// The tasks before their first entries.
fn courses_of<'a>(
    alloc: Global,
    tasks: &'a [CoreTask],
    script: &'a Script,
) -> Result<Vec<Course<'a>>, NoMemory>
    requires sound { All IsSoundTask (map plain_task tasks.now) }
    requires streams { length script.now ≡ length tasks.now }
    ensures { IfOk result (λ courses. HaveTaken (judged_of (map plain_task tasks.now) script.now) [] courses.items) }
{
    let mut courses = Vec::new(alloc);
    for (number, task) in tasks.iter().enumerate() {
        let course = Course::new(alloc, task, script, number)?;
        courses.push(course)?;
    }
    Ok(courses)
}
