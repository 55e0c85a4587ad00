ghost use Rattle.std.specs.Prelude.{List, Err, IfOk, Some};
ghost use Rattle.tcel_core.specs.Plain.{plain_set};
ghost use Rattle.tcel_core.specs.Sound.{IsSoundSet};
ghost use Rattle.tcel_check.specs.Answers.{Answers, IsCheckable};
ghost use Rattle.tcel_check.specs.Marks.{IsFirst};
ghost use Rattle.tcel_check.specs.Rows.{marks};
ghost use Rattle.tcel_tree.specs.Language.{Task};
ghost use Rattle.tcel_tree.specs.Plain.{plain_program};

use crate::core_tasks::set_of;
use crate::fail::CheckFail;
use crate::mark::{Mark, Row};
use crate::tasks::first_mark;
use std::alloc::Global;
use tcel_core::Set;
use tcel_num::NoMemory;
use tcel_tree::Program;

/// The core tasks of a program, in falling priority, where no fault and no limit stands in it; else the first of these, by
/// place and at one place by the table's order (docs/language.md). The set is sound where the program has a task, each of its
/// outermost expressions at most 64 operators, and each operator as many operands as it takes: what a text gives is so.
pub fn check(alloc: Global, program: &Program) -> Result<Set, CheckFail>
    ensures answers { Answers (plain_program program.now) result }
    ensures sound { IsCheckable (plain_program program.now) → IfOk result (λ set. IsSoundSet (plain_set set)) }
{
    let tasks = program.tasks.as_slice();
    match first_mark(alloc, tasks) {
        Err(NoMemory) => Err(CheckFail::NoMemory),
        Ok(Some(mark)) => Err(fail(mark)),
        Ok(None) => match set_of(alloc, tasks) {
            Err(NoMemory) => Err(CheckFail::NoMemory),
            Ok(set) => Ok(set),
        },
    }
}

/// The answer that a first fault or limit gives.
fn fail(mark: Mark) -> CheckFail
    ensures { (tasks : List Task) → IsFirst (marks tasks) (Some mark) → Answers tasks (Err result) }
{
    let at = mark.at;
    match mark.row {
        Row::Limit(kind) => CheckFail::Limit { kind, at },
        Row::Fault(kind) => CheckFail::Fault { kind, at },
    }
}
