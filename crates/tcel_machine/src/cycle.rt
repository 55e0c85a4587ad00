ghost use Rattle.std.specs.Prelude.{◌≡◌, ◌+◌, ◌*◌, ◌<◌, ◌≤◌, ◌^◌, [], slice_index_or};
ghost use Rattle.tcel_image.specs.Machine.{cycle, own_tick};
ghost use Rattle.tcel_image.specs.Spelling.{TaskInRange};
ghost use Rattle.tcel_machine.specs.Runs.{IsTaskValid, IsRunning};
ghost use Rattle.tcel_machine.specs.Task.{running_of, Shows};

use crate::entry::What;
use crate::execute::{execute, is_last_cycle};
use crate::task::Task;
use tcel_image::ImageTask;
use tcel_script::Script;
use tcel_target::Costs;

/// A tick of the task of this number, which is ready: one of its frame's start until that is done, and then a cycle of its instruction.
pub(crate) fn own_tick(
    costs: &Costs,
    image_task: &ImageTask,
    script: &Script,
    number: usize,
    now: u64,
    task: &mut Task,
) -> Option<What>
    requires range { TaskInRange image_task.now }
    requires valid { IsTaskValid image_task.now }
    requires now { now < 10 ^ 12 }
    requires running { IsRunning image_task.now now task.old }
    requires release { task.old.ended * image_task.now.period ≤ now }
    ensures running { IsRunning image_task.now (now + 1) task.new }
    ensures task { running_of task.new ≡ (own_tick costs.now image_task.now (slice_index_or script.now number []) now (running_of task.old)).task }
    ensures shown { Shows result task.new (own_tick costs.now image_task.now (slice_index_or script.now number []) now (running_of task.old)).shown }
{
    if task.dispatched < costs.dispatch {
        task.dispatched += 1;
        None
    } else {
        cycle(costs, image_task, script, number, now, task)
    }
}

/// A cycle of the task's instruction.
fn cycle(
    costs: &Costs,
    image_task: &ImageTask,
    script: &Script,
    number: usize,
    now: u64,
    task: &mut Task,
) -> Option<What>
    requires range { TaskInRange image_task.now }
    requires valid { IsTaskValid image_task.now }
    requires now { now < 10 ^ 12 }
    requires running { IsRunning image_task.now now task.old }
    requires release { task.old.ended * image_task.now.period ≤ now }
    ensures running { IsRunning image_task.now (now + 1) task.new }
    ensures task { running_of task.new ≡ (cycle costs.now image_task.now (slice_index_or script.now number []) now (running_of task.old)).task }
    ensures shown { Shows result task.new (cycle costs.now image_task.now (slice_index_or script.now number []) now (running_of task.old)).shown }
{
    let code = image_task.code.as_slice();
    let instr = code[task.place].instr;
    if is_last_cycle(costs, image_task.period, now, instr, task) {
        execute(task, script, number, instr)
    } else {
        task.spent += 1;
        None
    }
}
