ghost use Rattle.std.specs.Prelude.{◌≡◌, ℕ, IfErr, IfOk, IfSome, map, string_bytes};
ghost use Rattle.tcel_core.specs.Parts.{plain_parts};
ghost use Rattle.tcel_core.specs.Plain.{plain_set};
ghost use Rattle.tcel_core.specs.Sound.{IsSoundSet};
ghost use Rattle.tcel_demand.specs.Sound.{Fit};
ghost use Rattle.tcel_driver.specs.Choice.{IsChosen};
ghost use Rattle.tcel_target.specs.Costs.{CostsInRange};
ghost use Rattle.tcel_tool.specs.Answer.{OrMemory, begun};
ghost use Rattle.tcel_tool.specs.SetChoice.{IsChoiceFor, Names, RefusesSet, choice_stages, name_at, status_for, told_task};
ghost use Rattle.tcel_tool.specs.Stage.{Call};
ghost use Rattle.tcel_tool.specs.Stretch.{Passed, Stopped};
ghost use Rattle.tcel_tool.specs.TargetText.{GivesCosts, RefusesTarget};
ghost use Rattle.tcel_tool.specs.Chosen.{plain_choice};

use crate::program::{PROGRAM_LIMIT, program_of, set_of};
use crate::stages::load;
use crate::status::{LimitFault, Status};
use std::alloc::Global;
use tcel_core::Set;
use tcel_driver::{Choice, Refused, decide};
use tcel_io::Shelf;
use tcel_num::Name;
use tcel_target::{Costs, TargetFail, read_target};

/// The most bytes of a target.
pub(crate) const TARGET_LIMIT: usize = 65_536;

/// The set of a program, the costs of a target, and how many of the lowest tasks are sliced.
#[derive(Debug, Drop)]
pub(crate) struct ChosenSet {
    pub set: Set,
    pub costs: Costs,
    pub choice: Choice,
}

/// The program of word 1 and the target of word 2, and the choice of sliced tasks. Where the status of a refusal tells a task, `task` becomes its name.
pub(crate) fn choose_for<H: Shelf>(
    alloc: Global,
    words: &[String],
    shelf: &mut H,
    task: &mut Option<Name>,
) -> Result<ChosenSet, Status>
    ensures passed { IfOk result (λ chosen. let texts = map string_bytes words.now in (last : Call) × (last.words ≡ texts)
        × Passed choice_stages (begun texts) (H.seen shelf.old) last (H.seen shelf.new)
        × IsChoiceFor (last.read 1) (last.read 2) (plain_choice chosen)) }
    ensures stopped { IfErr result (λ status. Stopped choice_stages (begun (map string_bytes words.now))
        (H.seen shelf.old) (H.seen shelf.new) status task.new) }
{
    let text = load(alloc, words, 1, PROGRAM_LIMIT, shelf)?;
    let program = program_of(alloc, &text)?;
    let set = set_of(alloc, &program)?;
    let lines = load(alloc, words, 2, TARGET_LIMIT, shelf)?;
    let costs = costs_of(alloc, &lines)?;
    let choice = choose(alloc, &set, &costs, task)?;
    Ok(ChosenSet { set, costs, choice })
}

/// The costs of a target.
pub(crate) fn costs_of(alloc: Global, text: &[u8]) -> Result<Costs, Status>
    ensures gives { IfOk result (GivesCosts text.now) }
    ensures refusal { IfErr result (OrMemory (RefusesTarget text.now)) }
{
    match read_target(alloc, text) {
        Ok(costs) => Ok(costs),
        Err(TargetFail::NoMemory) => Err(Status::NoMemory),
        Err(fail) => Err(Status::Target(fail)),
    }
}

/// The least number of sliced tasks that fits.
pub(crate) fn choose(
    alloc: Global,
    set: &Set,
    costs: &Costs,
    task: &mut Option<Name>,
) -> Result<Choice, Status>
    requires sound { IsSoundSet (plain_set set.now) }
    requires costs { CostsInRange costs.now }
    ensures chosen { IfOk result (λ choice. IsChosen (plain_set set.now) costs.now choice.sliced choice.plans (map plain_parts choice.parts)) }
    ensures fit { IfOk result (λ choice. (hyper : ℕ) × Fit choice.plans hyper) }
    ensures refusal { IfErr result (OrMemory (RefusesSet (plain_set set.now) costs.now)) }
    ensures named { IfErr result (λ status. Names (plain_set set.now) status task.new) }
{
    match decide(alloc, set, costs) {
        Ok(choice) => Ok(choice),
        Err(cause) => {
            *task = told_name(set, &cause);
            Err(status_for(&cause))
        }
    }
}

/// The status for a cause.
pub(crate) fn status_for(cause: &Refused) -> Status
    ensures { result ≡ status_for cause.now }
{
    match cause {
        Refused::TooManyCells { task, words } => Status::Limit(LimitFault::Cells {
            task: *task,
            words: *words,
        }),
        Refused::TooDear { task, cycles } => Status::Limit(LimitFault::Cycles {
            task: *task,
            cycles: *cycles,
        }),
        Refused::HyperTooLong { task } => Status::Limit(LimitFault::Hyper { task: *task }),
        Refused::TooManyFrames { frames } => Status::Limit(LimitFault::Frames { frames: *frames }),
        Refused::Overload { demand, hyper } => Status::Overload {
            demand: *demand,
            hyper: *hyper,
        },
        Refused::Late(late) => Status::Late(*late),
        Refused::NoMemory => Status::NoMemory,
    }
}

/// The name of the task that a cause tells.
pub(crate) fn told_name(set: &Set, cause: &Refused) -> Option<Name>
    ensures { IfSome (told_task (status_for cause.now)) (λ number. result ≡ name_at (plain_set set.now) number) }
{
    match cause {
        Refused::TooManyCells { task, words: _ } => name_at(set, *task),
        Refused::TooDear { task, cycles: _ } => name_at(set, *task),
        Refused::HyperTooLong { task } => name_at(set, *task),
        Refused::Late(late) => name_at(set, late.task),
        Refused::TooManyFrames { .. } | Refused::Overload { .. } | Refused::NoMemory => None,
    }
}

/// The name of the task with this number.
pub(crate) fn name_at(set: &Set, number: usize) -> Option<Name>
    ensures { result ≡ name_at (plain_set set.now) number }
{
    match set.tasks.as_slice().get(number) {
        Some(task) => Some(task.name),
        None => None,
    }
}
