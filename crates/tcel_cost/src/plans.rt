ghost use Rattle.std.specs.Prelude.{◌≡◌, ◌<◌, ◌≤◌, ◌^◌, ◌∷◌, IfOk, IfErr};
ghost use Rattle.tcel_num.specs.Plan.{frame};
ghost use Rattle.tcel_core.specs.Parts.{AreOwnParts, plain_parts};
ghost use Rattle.tcel_core.specs.Plain.{plain_body, plain_task};
ghost use Rattle.tcel_core.specs.Sound.{IsSoundTask};
ghost use Rattle.tcel_demand.specs.Sound.{IsSoundPlan};
ghost use Rattle.tcel_target.specs.Costs.{CostsInRange};
ghost use Rattle.tcel_cost.specs.Answers.{IsAbove, Refuses};
ghost use Rattle.tcel_cost.specs.CostSteps.{entered};
ghost use Rattle.tcel_cost.specs.Forms.{form_of};
ghost use Rattle.tcel_cost.specs.Plans.{IsPlan};
ghost use Rattle.tcel_cost.specs.PointSteps.{plan_by};
ghost use Rattle.tcel_cost.specs.Rooms.{HasRoom, block_most};

use crate::bodies::after_body;
use crate::numbers::entered;
use crate::points::add_points;
use sqlite_items::Items;
use std::alloc::Global;
use tcel_core::{Body, CoreTask, Parts, Var};
use tcel_demand::{Point, PointName, TaskPlan};
use tcel_num::NoMemory;
use tcel_target::Costs;

/// Why a task gets no plan: a frame of it may take these cycles, which are above 10^9, or memory is wanting.
#[derive(Debug, Drop)]
pub enum CostFail {
    TooDear { cycles: u64 },
    NoMemory,
}

/// The most cycles that a frame may take.
const CYCLES: u64 = 1_000_000_000;

/// The plan of a task, whole or sliced into its parts (docs/analysis.md): its period in ticks, the cycles that a frame takes
/// at most, and its points: first the frame's, and then in text order those of each `do` with an event.
pub fn plan(
    alloc: Global,
    task: &CoreTask,
    parts: &Parts,
    sliced: bool,
    costs: &Costs,
) -> Result<TaskPlan, CostFail>
    requires sound { IsSoundTask (plain_task task.now) }
    requires own { AreOwnParts (plain_task task.now) (plain_parts parts.now) }
    requires costs { CostsInRange costs.now }
    ensures plan { IfOk result (λ p. IsPlan (form_of (plain_task task.now) sliced (plain_parts parts.now)) costs.now p) }
    ensures sound { IfOk result (λ p. IsSoundPlan p) }
    ensures period { IfOk result (λ p. p.period ≡ task.now.period) }
    ensures refused { IfErr result (Refuses (form_of (plain_task task.now) sliced (plain_parts parts.now)) costs.now) }
{
    if sliced {
        let rest = after_body(&parts.rest, parts.vars.as_slice(), costs, entered(0));
        plan_of(
            alloc,
            task,
            &parts.first,
            rest.total,
            parts.vars.as_slice(),
            costs,
        )
    } else {
        plan_of(alloc, task, &task.body, 0, task.vars.as_slice(), costs)
    }
}

/// The plan of a task with this first part, its variables, and the cycles of the rest.
pub(crate) fn plan_of(
    alloc: Global,
    task: &CoreTask,
    first: &Body,
    rest: u64,
    vars: &[Var],
    costs: &Costs,
) -> Result<TaskPlan, CostFail>
    requires room { HasRoom (entered costs.now.dispatch) (block_most (plain_body first.now) vars.now costs.now) }
    requires rest { rest < 2 ^ 62 }
    ensures plan { IfOk result (λ p. p ≡ plan_by task.now.period task.now.finish (plain_body first.now) rest vars.now costs.now) }
    ensures within { IfOk result (λ p. p.total ≤ 10 ^ 9) }
    ensures above { IfErr result (IsAbove (plan_by task.now.period task.now.finish (plain_body first.now) rest vars.now costs.now).total) }
{
    let mut windows = Items::new(alloc);
    let start = entered(costs.dispatch as u64);
    let Ok(cost) = add_points(first, vars, costs, start, &mut windows) else {
        return Err(CostFail::NoMemory);
    };
    let marked = cost.total + costs.mark as u64;
    let total = marked + rest + costs.end as u64;
    if total > CYCLES {
        return Err(CostFail::TooDear { cycles: total });
    }
    let Ok(points) = with_frame(alloc, marked, task.finish, windows) else {
        return Err(CostFail::NoMemory);
    };
    Ok(TaskPlan {
        period: task.period,
        total,
        points,
    })
}

/// The points of a task: that of its frames, and then these.
fn with_frame(
    alloc: Global,
    prefix: u64,
    bound: u64,
    windows: Items<Point>,
) -> Result<Items<Point>, NoMemory>
    ensures { IfOk result (λ points. points ≡ record { prefix = prefix; bound = bound; name = frame } ∷ windows) }
{
    let mut points = Items::new(alloc);
    points.push(Point {
        prefix,
        bound,
        name: PointName::Frame,
    })?;
    points.append(windows)?;
    Ok(points)
}
