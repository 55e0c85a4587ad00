ghost use Rattle.std.specs.Prelude.{◌≡◌, IfOk, OnOk, flat_map, map};
ghost use Rattle.std.specs.List.{AllByRecursion};
ghost use Rattle.tcel_check.specs.Marks.{IsFirst};
ghost use Rattle.tcel_check.specs.Least.{Adds};
ghost use Rattle.tcel_check.specs.Rows.{many_tasks, marks, same_priorities, task_marks, twice_tasks};
ghost use Rattle.tcel_check.specs.Spelled.{IsSpelledTask};
ghost use Rattle.tcel_tree.specs.Plain.{plain_task};

use crate::fail::{CheckKind, LimitKind};
use crate::head::{declared, many_names, many_words};
use crate::least::keep;
use crate::mark::{Mark, Row};
use crate::walk::Walk;
use indexmap::IndexSet;
use sqlite_items::at as element;
use std::alloc::Global;
use tcel_num::{Name, NoMemory};
use tcel_tree::{Placed, Task};

const MOST_TASKS: usize = 16;

/// The name of the 17th task.
pub fn many_tasks(tasks: &[Task], least: &mut Option<Mark>)
    ensures { Adds least.old least.new (many_tasks (map plain_task tasks.now)) }
{
    if let Some(task) = element(tasks, MOST_TASKS) {
        keep(least, true, Row::Limit(LimitKind::Tasks), task.at);
    }
}

/// The names of tasks that have one's before them.
pub fn twice_tasks(alloc: Global, tasks: &[Task], least: &mut Option<Mark>) -> Result<(), NoMemory>
    ensures { OnOk result (Adds least.old least.new (twice_tasks (map plain_task tasks.now))) }
{
    let mut names: IndexSet<Name> = IndexSet::new(alloc);
    for task in tasks {
        let new = names.insert(task.name)?;
        keep(least, !new, Row::Fault(CheckKind::Twice), task.at);
    }
    Ok(())
}

/// The priorities that a task before has.
pub fn same_priorities(
    alloc: Global,
    tasks: &[Task],
    least: &mut Option<Mark>,
) -> Result<(), NoMemory>
    ensures { OnOk result (Adds least.old least.new (same_priorities (map plain_task tasks.now))) }
{
    let mut priorities: IndexSet<i64> = IndexSet::new(alloc);
    for task in tasks {
        let new = priorities.insert(value_of(&task.priority))?;
        keep(
            least,
            !new,
            Row::Fault(CheckKind::SamePriority),
            task.priority.at,
        );
    }
    Ok(())
}

fn value_of(number: &Placed) -> i64
    ensures { result ≡ number.now.value }
{
    number.value
}

/// The faults and limits of a task.
pub fn task_marks(alloc: Global, task: &Task, least: &mut Option<Mark>) -> Result<(), NoMemory>
    ensures marks { OnOk result (Adds least.old least.new (task_marks (plain_task task.now))) }
    ensures spelled { OnOk result (IsSpelledTask (plain_task task.now)) }
{
    let _bytes = task.name.bytes();
    let decls = task.decls.as_slice();
    many_names(decls, least);
    many_words(decls, least);
    let names = declared(alloc, decls, least)?;
    let mut walk = Walk::new(*least);
    walk.head(task);
    walk.block(&names, task.body.as_slice(), 0);
    *least = walk.least;
    Ok(())
}

fn each_task(alloc: Global, tasks: &[Task], least: &mut Option<Mark>) -> Result<(), NoMemory>
    ensures marks { OnOk result (Adds least.old least.new (flat_map task_marks (map plain_task tasks.now))) }
    ensures spelled { OnOk result (AllByRecursion IsSpelledTask (map plain_task tasks.now)) }
{
    for task in tasks {
        task_marks(alloc, task, least)?;
    }
    Ok(())
}

/// The first fault or limit of a program, where there is one.
pub fn first_mark(alloc: Global, tasks: &[Task]) -> Result<Option<Mark>, NoMemory>
    ensures first { IfOk result (λ least. IsFirst (marks (map plain_task tasks.now)) least) }
    ensures spelled { OnOk result (AllByRecursion IsSpelledTask (map plain_task tasks.now)) }
{
    let mut least = None;
    many_tasks(tasks, &mut least);
    twice_tasks(alloc, tasks, &mut least)?;
    same_priorities(alloc, tasks, &mut least)?;
    each_task(alloc, tasks, &mut least)?;
    Ok(least)
}
