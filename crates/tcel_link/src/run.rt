ghost use Rattle.std.specs.Prelude.{◌≡◌, ◌<◌, ◌≤◌, ◌^◌, All, IfOk, None, length, map};
ghost use Rattle.tcel_core.specs.Cells.{all_words};
ghost use Rattle.tcel_core.specs.Frames.{declared_state, start_cells};
ghost use Rattle.tcel_core.specs.Plain.{plain_body, plain_task};
ghost use Rattle.tcel_core.specs.Scope.{Fits};
ghost use Rattle.tcel_link.specs.Feeds.{LeadsWithin, carried};
ghost use Rattle.tcel_link.specs.Runs.{IsRelease, first_release};

use crate::feed::{Feed, give_all, tell_all};
use std::alloc::Global;
use tcel_core::{Cells, CoreTask, Event, Inputs, frame};
use tcel_num::NoMemory;

/// A task on its way through its frames.
#[derive(Debug, Drop)]
pub(crate) struct Run {
    cells: Cells,
    inputs: Inputs,
    /// When its next frame is released, in ticks.
    pub(crate) next: u64,
}

impl Run {
    /// A task before its first frame, over these values of its inputs.
    pub(crate) fn start(
        alloc: Global,
        task: &CoreTask,
        lists: Vec<Vec<i64>>,
    ) -> Result<Run, NoMemory>
        requires { all_words task.now.vars < 2 ^ 63 }
        ensures { IfOk result (λ run. run ≡ record {
          cells = start_cells task.now.vars (declared_state task.now.vars);
          inputs = map (λ list. list.items) lists.items;
          next = 0;
        }) }
    {
        let cells = Cells::start(alloc, task)?;
        let inputs = Inputs::new(alloc, lists)?;
        Ok(Run {
            cells,
            inputs,
            next: 0,
        })
    }

    /// Runs the next frame of this task, over these links. The events are room for those of the frame.
    pub(crate) fn release(
        &mut self,
        number: u32,
        task: &CoreTask,
        feeds: &mut [Feed],
        events: &mut Vec<Event>,
    ) -> Result<(), NoMemory>
        requires variables { length task.now.vars ≤ 256 }
        requires fits { Fits (plain_body task.now.body) task.now.vars }
        requires words { length self.old.cells ≡ all_words task.now.vars }
        requires inputs { All (LeadsWithin number (length self.old.inputs)) (map carried feeds.old) }
        requires time { self.old.next < 2 ^ 62 }
        requires period { task.now.period < 2 ^ 62 }
        requires deadline { task.now.finish < 2 ^ 62 }
        ensures ran { IfOk result (λ _. IsRelease number (plain_task task.now) self.old self.new (map carried feeds.old) (map carried feeds.new)) }
        ensures words { IfOk result (λ _. length self.new.cells ≡ all_words task.now.vars) }
    {
        let time = self.next;
        give_all(feeds, number, time, &mut self.inputs)?;
        events.clear();
        frame(task, &mut self.cells, &mut self.inputs, events)?;
        tell_all(feeds, number, time, time + task.finish, events)?;
        self.next = time + task.period;
        Ok(())
    }
}

/// The first of the tasks that are released first, before a time.
pub(crate) fn first_release(runs: &[Run], ticks: u64) -> Option<usize>
    ensures { result ≡ first_release ticks None 0 runs.now }
{
    let mut found = None;
    let mut time = ticks;
    for (number, run) in runs.iter().enumerate() {
        if run.next < time {
            time = run.next;
            found = Some(number);
        }
    }
    found
}
