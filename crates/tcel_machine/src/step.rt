ghost use Rattle.std.specs.Prelude.{◌≡◌, ◌+◌, ◌<◌, false, length, map};
ghost use Rattle.tcel_machine.specs.Runs.{IsFirstReady};
ghost use Rattle.tcel_machine.specs.Task.{running_of};
ghost use Rattle.tcel_machine.specs.Tick.{CanTick, Ticks};
ghost use Rattle.tcel_machine.specs.Turns.{AreReadyAlike, IsTurn, is_end_entry};

use crate::cycle::own_tick;
use crate::entry::Entry;
use crate::task::Task;
use crate::turn::{Turn, end_with, renew};
use tcel_image::Image;
use tcel_script::Script;

/// A tick that the task of this number has.
fn run(image: &Image, script: &Script, now: u64, tasks: &mut [Task], number: usize) -> Option<Entry>
    requires can { CanTick image.now now tasks.old }
    requires first { IsFirstReady image.now.tasks now (map running_of tasks.old) (Some number) }
    requires within { number < length tasks.old }
    ensures ticks { Ticks image.now script.now now tasks.old tasks.new result }
    ensures alike { is_end_entry result ≡ false → AreReadyAlike image.now.tasks tasks.old tasks.new }
{
    let image_tasks = image.tasks.as_slice();
    let image_task = &image_tasks[number];
    let task = &mut tasks[number];
    let frame = task.ended;
    match own_tick(&image.costs, image_task, script, number, now, task) {
        None => None,
        Some(what) => Some(Entry {
            time: now + 1,
            task: number as u32,
            frame,
            what,
        }),
    }
}

/// One tick of all tasks. `turn` is what is known of it and of the next.
pub(crate) fn step(
    image: &Image,
    script: &Script,
    now: u64,
    tasks: &mut [Task],
    turn: &mut Turn,
) -> Option<Entry>
    requires can { CanTick image.now now tasks.old }
    requires turn { IsTurn image.now.tasks now (map running_of tasks.old) turn.old }
    ensures ticks { Ticks image.now script.now now tasks.old tasks.new result }
    ensures turn { IsTurn image.now.tasks (now + 1) (map running_of tasks.new) turn.new }
{
    renew(turn, image, now, tasks);
    match turn.first {
        None => None,
        Some(number) => {
            let entry = run(image, script, now, tasks, number);
            end_with(turn, &entry);
            entry
        }
    }
}
