ghost use Rattle.std.specs.Prelude.{All, IfErr, IfOk, map};
ghost use Rattle.tcel_core.specs.Parts.{AreOwnParts, plain_parts};
ghost use Rattle.tcel_core.specs.Plain.{plain_task};
ghost use Rattle.tcel_core.specs.Sound.{IsSoundTask};
ghost use Rattle.tcel_target.specs.declared.costs.Costs.{Costs};
ghost use Rattle.tcel_driver.specs.Forms.{AreSplit};
ghost use Rattle.tcel_driver.specs.Refusals.{ForbidsForms};
ghost use Rattle.tcel_driver.specs.Steps.{IsLargeAt};

use crate::refused::Refused;
use sqlite_items::Items;
use std::alloc::Global;
use tcel_core::{CoreTask, Parts};
use tcel_flow::flow_of;
use tcel_rename::{PartsFail, parts};
use tcel_slice::kept;

/// The own parts of each task.
pub(crate) fn split_all(alloc: Global, tasks: &[CoreTask]) -> Result<Items<Parts>, Refused>
    requires { All (λ task. IsSoundTask (plain_task task)) tasks.now }
    ensures split { IfOk result (λ own. AreSplit (map plain_task tasks.now) (map plain_parts own)) }
    ensures refused { IfErr result (λ cause. (costs : Costs)
        → ForbidsForms (map plain_task tasks.now) costs cause) }
{
    let mut all = Items::new(alloc);
    for (number, task) in tasks.iter().enumerate() {
        let own = split(alloc, number, task)?;
        all.push(own)?;
    }
    Ok(all)
}

/// Those of the task with this number.
fn split(alloc: Global, number: usize, task: &CoreTask) -> Result<Parts, Refused>
    requires { IsSoundTask (plain_task task.now) }
    ensures own { IfOk result (λ own. AreOwnParts (plain_task task.now) (plain_parts own)) }
    ensures refused { IfErr result (IsLargeAt number (plain_task task.now)) }
{
    let flow = flow_of(alloc, task)?;
    let kept = kept(alloc, task, &flow)?;
    match parts(alloc, task, &kept) {
        Ok(own) => Ok(own),
        Err(PartsFail::TooManyCells { words }) => Err(Refused::TooManyCells {
            task: number,
            words,
        }),
        Err(PartsFail::NoMemory) => Err(Refused::NoMemory),
    }
}
