ghost use Rattle.std.specs.Prelude.{◌≡◌, ◌≤◌, IfErr, IfOk, OnOk, length, map, string_bytes};
ghost use Rattle.tcel_core.specs.Parts.{plain_parts};
ghost use Rattle.tcel_core.specs.Plain.{plain_set};
ghost use Rattle.tcel_core.specs.Sound.{IsSoundSet};
ghost use Rattle.tcel_driver.specs.Forms.{AreForms};
ghost use Rattle.tcel_driver.specs.Steps.{ArePaired};
ghost use Rattle.tcel_target.specs.Costs.{CostsInRange};
ghost use Rattle.tcel_tool.specs.Answer.{OrMemory, begun};
ghost use Rattle.tcel_tool.specs.FewestCommand.{IsMany, stages};
ghost use Rattle.tcel_tool.specs.FormedSet.{plain_forms};
ghost use Rattle.tcel_tool.specs.SetChoice.{Names};
ghost use Rattle.tcel_tool.specs.SetForms.{AreFormsFor, ForbidsSet};
ghost use Rattle.tcel_tool.specs.Stage.{Call};
ghost use Rattle.tcel_tool.specs.Stretch.{Passed, Stopped};

use crate::choice::{TARGET_LIMIT, costs_of, status_for, told_name};
use crate::program::{PROGRAM_LIMIT, program_of, set_of};
use crate::stages::load;
use crate::status::{CountKind, LimitFault, Status};
use std::alloc::Global;
use tcel_core::Set;
use tcel_driver::{Forms, forms_of};
use tcel_io::Shelf;
use tcel_num::Name;
use tcel_target::Costs;

/// The most tasks of a program of which the fewest sliced ones are asked for.
const MOST_TASKS: usize = 12;

/// The set of a program, the costs of a target, and both forms of each task.
#[derive(Debug, Drop)]
pub(crate) struct FormedSet {
    pub set: Set,
    pub costs: Costs,
    pub forms: Forms,
}

/// Both forms of each task of the program of word 1, which has few tasks, for the target of word 2. Where the status of a refusal tells a task, `task`
/// becomes its name.
pub(crate) fn forms_for<H: Shelf>(
    alloc: Global,
    words: &[String],
    shelf: &mut H,
    task: &mut Option<Name>,
) -> Result<FormedSet, Status>
    ensures passed { IfOk result (λ formed. let texts = map string_bytes words.now in (last : Call) × (last.words ≡ texts)
        × Passed stages (begun texts) (H.seen shelf.old) last (H.seen shelf.new)
        × AreFormsFor (last.read 1) (last.read 2) (plain_forms formed)) }
    ensures paired { IfOk result (λ formed. ArePaired formed.forms.whole formed.forms.sliced formed.forms.hyper) }
    ensures one_each { IfOk result (λ formed. length formed.forms.whole ≡ length formed.set.tasks) }
    ensures few { IfOk result (λ formed. length formed.set.tasks ≤ 12) }
    ensures stopped { IfErr result (λ status. Stopped stages (begun (map string_bytes words.now))
        (H.seen shelf.old) (H.seen shelf.new) status task.new) }
{
    let text = load(alloc, words, 1, PROGRAM_LIMIT, shelf)?;
    let program = program_of(alloc, &text)?;
    let set = set_of(alloc, &program)?;
    check_count(&set)?;
    let lines = load(alloc, words, 2, TARGET_LIMIT, shelf)?;
    let costs = costs_of(alloc, &lines)?;
    let forms = forms(alloc, &set, &costs, task)?;
    Ok(FormedSet { set, costs, forms })
}

/// Refuses more tasks than there may be.
fn check_count(set: &Set) -> Result<(), Status>
    ensures few { OnOk result (length (plain_set set.now) ≤ 12) }
    ensures refusal { IfErr result (IsMany (plain_set set.now)) }
{
    let tasks = set.tasks.len();
    if tasks > MOST_TASKS {
        return Err(Status::Limit(LimitFault::Count {
            kind: CountKind::FewestTasks,
            value: tasks as u64,
        }));
    }
    Ok(())
}

/// Both forms of each task of the set.
fn forms(alloc: Global, set: &Set, costs: &Costs, task: &mut Option<Name>) -> Result<Forms, Status>
    requires sound { IsSoundSet (plain_set set.now) }
    requires costs { CostsInRange costs.now }
    ensures forms { IfOk result (λ forms. AreForms (plain_set set.now) costs.now
        (map plain_parts forms.parts) forms.whole forms.sliced forms.hyper) }
    ensures paired { IfOk result (λ forms. ArePaired forms.whole forms.sliced forms.hyper) }
    ensures one_each { IfOk result (λ forms. length forms.whole ≡ length set.now.tasks) }
    ensures refusal { IfErr result (OrMemory (ForbidsSet (plain_set set.now) costs.now)) }
    ensures named { IfErr result (λ status. Names (plain_set set.now) status task.new) }
{
    match forms_of(alloc, set, costs) {
        Ok(forms) => Ok(forms),
        Err(cause) => {
            *task = told_name(set, &cause);
            Err(status_for(&cause))
        }
    }
}
