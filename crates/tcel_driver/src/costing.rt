ghost use Rattle.std.specs.Prelude.{All, IfErr, IfOk, map};
ghost use Rattle.tcel_core.specs.Parts.{AreOwnParts, plain_parts};
ghost use Rattle.tcel_core.specs.Plain.{plain_task};
ghost use Rattle.tcel_core.specs.Sound.{IsSoundTask};
ghost use Rattle.tcel_demand.specs.Sound.{IsSoundPlan};
ghost use Rattle.tcel_target.specs.Costs.{CostsInRange};
ghost use Rattle.tcel_cost.specs.Forms.{form_of};
ghost use Rattle.tcel_driver.specs.Forms.{AreCosted, AreSplit, IsAffordable};
ghost use Rattle.tcel_driver.specs.Refusals.{ForbidsForms};
ghost use Rattle.tcel_driver.specs.Steps.{IsDearAt};

use crate::refused::Refused;
use sqlite_items::Items;
use std::alloc::Global;
use tcel_core::{CoreTask, Parts};
use tcel_cost::{CostFail, plan};
use tcel_demand::TaskPlan;
use tcel_target::Costs;

/// Of each task its plan as a whole and its plan in two parts.
#[derive(Debug, Drop)]
pub(crate) struct BothPlans {
    pub(crate) whole: Items<TaskPlan>,
    pub(crate) sliced: Items<TaskPlan>,
}

/// Those of tasks with their own parts.
pub(crate) fn cost_all(
    alloc: Global,
    tasks: &[CoreTask],
    parts: &[Parts],
    costs: &Costs,
) -> Result<BothPlans, Refused>
    requires sound { All (λ task. IsSoundTask (plain_task task)) tasks.now }
    requires split { AreSplit (map plain_task tasks.now) (map plain_parts parts.now) }
    requires costs { CostsInRange costs.now }
    ensures costed { IfOk result (λ both. AreCosted costs.now (map plain_task tasks.now)
        (map plain_parts parts.now) both.whole both.sliced) }
    ensures whole { IfOk result (λ both. All IsSoundPlan both.whole) }
    ensures sliced { IfOk result (λ both. All IsSoundPlan both.sliced) }
    ensures refused { IfErr result (ForbidsForms (map plain_task tasks.now) costs.now) }
{
    let mut whole = Items::new(alloc);
    let mut sliced = Items::new(alloc);
    for (number, task) in tasks.iter().enumerate() {
        let own = &parts[number];
        let at_once = plan_of(alloc, number, task, own, false, costs)?;
        let in_parts = plan_of(alloc, number, task, own, true, costs)?;
        whole.push(at_once)?;
        sliced.push(in_parts)?;
    }
    Ok(BothPlans { whole, sliced })
}

/// The plan of the task with this number.
fn plan_of(
    alloc: Global,
    number: usize,
    task: &CoreTask,
    own: &Parts,
    sliced: bool,
    costs: &Costs,
) -> Result<TaskPlan, Refused>
    requires sound { IsSoundTask (plain_task task.now) }
    requires own { AreOwnParts (plain_task task.now) (plain_parts own.now) }
    requires costs { CostsInRange costs.now }
    ensures plan { IfOk result (IsAffordable
        (form_of (plain_task task.now) sliced (plain_parts own.now)) costs.now) }
    ensures sound { IfOk result IsSoundPlan }
    ensures refused { IfErr result (IsDearAt number
        (form_of (plain_task task.now) sliced (plain_parts own.now)) costs.now) }
{
    match plan(alloc, task, own, sliced, costs) {
        Ok(plan) => Ok(plan),
        Err(CostFail::TooDear { cycles }) => Err(Refused::TooDear {
            task: number,
            cycles,
        }),
        Err(CostFail::NoMemory) => Err(Refused::NoMemory),
    }
}
