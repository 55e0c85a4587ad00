ghost use Rattle.std.specs.Prelude.{◌≡◌, ◌*◌, ◌<◌, ◌^◌, map, if◌then◌else◌};
ghost use Rattle.tcel_machine.specs.Task.{running_of};
ghost use Rattle.tcel_machine.specs.Tick.{CanTick};
ghost use Rattle.tcel_machine.specs.Turns.{IsTurn, is_end_entry};

use crate::entry::{Entry, What};
use crate::task::Task;
use tcel_image::{Image, ImageTask};

/// What is known of the ticks before `until`, for as long as no frame ends: this task is the first that is ready, or none is.
#[derive(Clone, Copy, Debug)]
pub(crate) struct Turn {
    pub(crate) first: Option<usize>,
    pub(crate) until: u64,
}

/// When the frame of the task that isn't ended is released.
fn release(image_task: &ImageTask, task: &Task) -> u64
    requires { task.now.ended * image_task.now.period < 2 ^ 63 }
    ensures { result ≡ task.now.ended * image_task.now.period }
{
    task.ended * u64::from(image_task.period)
}

/// Looks for the first task that is ready, up to the next release of a task before it.
fn turn_at(image: &Image, now: u64, tasks: &[Task]) -> Turn
    requires { CanTick image.now now tasks.now }
    ensures turn { IsTurn image.now.tasks now (map running_of tasks.now) result }
    ensures later { now < result.until }
{
    let image_tasks = image.tasks.as_slice();
    let mut until = u64::MAX;
    for (number, task) in tasks.iter().enumerate() {
        let release = release(&image_tasks[number], task);
        if release <= now {
            return Turn {
                first: Some(number),
                until,
            };
        }
        until = until.min(release);
    }
    Turn { first: None, until }
}

/// Looks again where nothing is known of this tick.
pub(crate) fn renew(turn: &mut Turn, image: &Image, now: u64, tasks: &[Task])
    requires can { CanTick image.now now tasks.now }
    requires turn { IsTurn image.now.tasks now (map running_of tasks.now) turn.old }
    ensures turn { IsTurn image.now.tasks now (map running_of tasks.now) turn.new }
    ensures later { now < turn.new.until }
{
    if turn.until <= now {
        *turn = turn_at(image, now, tasks);
    }
}

/// Ends the turn where the entry of a tick ended a frame.
pub(crate) fn end_with(turn: &mut Turn, entry: &Option<Entry>)
    ensures first { turn.new.first ≡ turn.old.first }
    ensures until { turn.new.until ≡ (if is_end_entry entry.now then 0 else turn.old.until) }
{
    if let Some(
        Entry {
            what: What::End,
            ..
        },
    ) = entry
    {
        turn.until = 0;
    }
}
