ghost use Rattle.std.specs.Prelude.{◌≡◌, IfOk, map};
ghost use Rattle.tcel_core.specs.Plain.{plain_set, plain_task};
ghost use Rattle.tcel_core.specs.Ports.{port_row, port_rows};
ghost use Rattle.tcel_core.specs.Sound.{IsSoundSet};
ghost use Rattle.tcel_num.specs.PortRow.{HaveDistinctNames};

use crate::body::Body;
use crate::var::Var;
use sqlite_items::Items;
use std::alloc::Global;
use tcel_num::{Name, NoMemory, PortRow};

/// The tasks of a checked program, in falling priority.
#[derive(Debug, Drop)]
pub struct Set {
    pub tasks: Items<CoreTask>,
}

/// A task: `period` and `finish`, the deadline of its frames, are in ticks, 1 to 10^9 each. Its variables stand in the order
/// states, locals, temporaries, each group in order of declaration, and its ports in order of declaration (docs/language.md).
#[derive(Debug, Drop)]
pub struct CoreTask {
    pub name: Name,
    /// 1 to 1,000; the task with the larger number runs first.
    pub priority: u32,
    pub period: u64,
    pub finish: u64,
    pub vars: Items<Var>,
    pub inputs: Items<Name>,
    pub outputs: Items<Name>,
    pub body: Body,
}

impl Set {
    /// A row for each task, in order: its name and the names of its inputs. In a sound set no two tasks have one name, and no
    /// two inputs of one task.
    pub fn ports(&self, alloc: Global) -> Result<Vec<PortRow>, NoMemory>
        ensures rows { IfOk result (λ rows. rows.items ≡ port_rows (plain_set self.now)) }
        ensures distinct { IsSoundSet (plain_set self.now) → IfOk result (λ rows. HaveDistinctNames rows.items) }
    {
        rows_of(alloc, self.tasks.as_slice())
    }
}

fn rows_of(alloc: Global, tasks: &[CoreTask]) -> Result<Vec<PortRow>, NoMemory>
    ensures { IfOk result (λ rows. rows.items ≡ map port_row (map plain_task tasks.now)) }
{
    let mut rows = Vec::new(alloc);
    for task in tasks {
        let inputs = Items::from_slice(alloc, task.inputs.as_slice())?;
        rows.push(PortRow {
            task: task.name,
            inputs,
        })?;
    }
    Ok(rows)
}
