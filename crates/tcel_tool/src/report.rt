ghost use Rattle.std.specs.Prelude.{◌≡◌, ◌<◌, ◌++◌, ℕ, Some, IfOk, OnOk, length, slice_get, slice_index_or};
ghost use Rattle.tcel_busy.specs.WorstStretches.{AreWorst};
ghost use Rattle.tcel_demand.specs.PlanViews.{name_of};
ghost use Rattle.tcel_demand.specs.Sound.{Fit};
ghost use Rattle.tcel_num.specs.Plan.{Plan};
ghost use Rattle.tcel_tool.specs.Chosen.{plain_choice};
ghost use Rattle.tcel_tool.specs.FaultLine.{point_number, point_word};
ghost use Rattle.tcel_tool.specs.Report.{AddsTask, IsReport, form_word, head_line, no_response, part_text, point_line, points_text, task_line};
ghost use Rattle.tcel_tool.specs.SetChoice.{IsBest};

use crate::choice::ChosenSet;
use crate::writing::{put, put_number};
use std::alloc::Global;
use tcel_busy::worst_of_task;
use tcel_demand::{Point, PointName, TaskPlan, Worst};
use tcel_num::{Name, NoMemory};

/// What each task of the choice asks of the processor, with the worst responses of its points (docs/formats.md).
pub(crate) fn report_on(alloc: Global, chosen: &ChosenSet) -> Result<Vec<u8>, NoMemory>
    requires { IsBest (plain_choice chosen.now) }
    ensures { IfOk result (λ text. IsReport (plain_choice chosen.now) text.items) }
{
    let tasks = chosen.set.tasks.len();
    let mut text = Vec::new(alloc);
    put_head(&mut text, chosen.choice.sliced, tasks)?;
    for number in 0..tasks {
        put_task(alloc, &mut text, chosen, number)?;
    }
    Ok(text)
}

fn put_head(out: &mut Vec<u8>, sliced: usize, tasks: usize) -> Result<(), NoMemory>
    ensures { OnOk result (out.new.items ≡ out.old.items ++ head_line sliced tasks) }
{
    put_part(out, b"sliced ", sliced as u64)?;
    put_part(out, b" of ", tasks as u64)?;
    put(out, b"\n")
}

/// The line of the task with this number, and those of its points.
fn put_task(
    alloc: Global,
    out: &mut Vec<u8>,
    chosen: &ChosenSet,
    number: usize,
) -> Result<(), NoMemory>
    requires best { IsBest (plain_choice chosen.now) }
    requires within { number < length chosen.now.set.tasks }
    ensures { OnOk result (AddsTask (plain_choice chosen.now) number out.old.items out.new.items) }
{
    let tasks = chosen.set.tasks.as_slice();
    let plans = chosen.choice.plans.as_slice();
    let worst = worst_responses(alloc, plans, number)?;
    let sliced = number + chosen.choice.sliced >= tasks.len();
    let task = &tasks[number];
    let plan = &plans[number];
    put_line(out, &task.name, sliced, plan)?;
    let end = put_points(out, plan.points.as_slice(), &worst)?;
    Ok(end)
}

/// The worst response of each point of the task.
fn worst_responses(alloc: Global, plans: &[TaskPlan], task: usize) -> Result<Vec<Worst>, NoMemory>
    requires fit { (hyper : ℕ) × Fit plans.now hyper }
    requires in_range { task < length plans.now }
    ensures worst { IfOk result (λ worst. AreWorst plans.now task worst.items) }
    ensures one_each { IfOk result (λ worst. (plan : Plan) → slice_get plans.now task ≡ Some plan → length worst.items ≡ length plan.points) }
{
    let none = Worst {
        frame: 0,
        response: 0,
    };
    let plan = &plans[task];
    let mut worst = vec![in alloc; none; plan.points.len()]?;
    worst_of_task(plans, task, &mut worst);
    Ok(worst)
}

fn put_line(out: &mut Vec<u8>, name: &Name, sliced: bool, plan: &TaskPlan) -> Result<(), NoMemory>
    ensures { OnOk result (out.new.items ≡ out.old.items ++ task_line name.now sliced plan.now) }
{
    put(out, b"task ")?;
    put(out, name.bytes())?;
    put(out, form_word(sliced))?;
    put_part(out, b" period ", plan.period)?;
    put_part(out, b" total ", plan.total)?;
    put(out, b"\n")
}

fn form_word(sliced: bool) -> &'static [u8]
    ensures { result.now ≡ form_word sliced }
{
    if sliced { b" sliced" } else { b" whole" }
}

/// A line for each of these points, with the response at its place.
fn put_points(out: &mut Vec<u8>, points: &[Point], worst: &[Worst]) -> Result<(), NoMemory>
    ensures { OnOk result (out.new.items ≡ out.old.items ++ points_text worst.now 0 points.now) }
{
    for (number, point) in points.iter().enumerate() {
        put_point(out, *point, worst_at(worst, number))?;
    }
    Ok(())
}

/// The response at this place, and that to nothing where there is none.
fn worst_at(worst: &[Worst], number: usize) -> Worst
    ensures { result ≡ slice_index_or worst.now number no_response }
{
    match worst.get(number) {
        Some(worst) => *worst,
        None => Worst {
            frame: 0,
            response: 0,
        },
    }
}

fn put_point(out: &mut Vec<u8>, point: Point, worst: Worst) -> Result<(), NoMemory>
    ensures { OnOk result (out.new.items ≡ out.old.items ++ point_line point worst) }
{
    put(out, b"point ")?;
    put_name(out, point.name)?;
    put_part(out, b" prefix ", point.prefix)?;
    put_part(out, b" bound ", point.bound)?;
    put_part(out, b" worst ", worst.response)?;
    put_part(out, b" frame ", worst.frame)?;
    put(out, b"\n")
}

pub(crate) fn put_name(out: &mut Vec<u8>, name: PointName) -> Result<(), NoMemory>
    ensures { OnOk result (out.new.items ≡ out.old.items ++ (point_word (name_of name) ++ point_number (name_of name))) }
{
    match name {
        PointName::Frame => put(out, b"frame"),
        PointName::Before(number) => put_part(out, b"before ", u64::from(number)),
        PointName::Within(number) => put_part(out, b"within ", u64::from(number)),
    }
}

/// A word and a number.
pub(crate) fn put_part(out: &mut Vec<u8>, word: &[u8], number: u64) -> Result<(), NoMemory>
    ensures { OnOk result (out.new.items ≡ out.old.items ++ part_text word.now number) }
{
    put(out, word)?;
    put_number(out, number)
}
