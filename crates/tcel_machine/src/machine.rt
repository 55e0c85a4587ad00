ghost use Rattle.std.specs.Prelude.{◌≡◌, ◌<◌, ◌^◌, length, IfOk};
ghost use Rattle.tcel_machine.specs.Run.{loaded, after_tick, tick_of, state_at, Tells};

use crate::entry::Entry;
use crate::start::start_all;
use crate::step::step;
use crate::task::Task;
use crate::turn::Turn;
use std::alloc::Global;
use std::marker::Model;
use tcel_num::NoMemory;
use tcel_script::Script;
use tcel_verify::Ready;

/// A verified image that runs on a script. Contracts see it as the image, the streams, and the state of
/// the machine that docs/machine.md defines.
#[derive(Debug, Drop)]
pub struct Machine {
    ready: Ready,
    script: Script,
    tasks: Vec<Task>,
    ticks: u64,
    turn: Turn,
}

impl Model for Machine {
    ghost use Rattle.tcel_machine.specs.Run.{Run};

    ghost Value = { Run };

    ghost use Rattle.tcel_machine.specs.Standing.{run_of, IsStanding};

    ghost view = { run_of };

    ghost invariant = { IsStanding };
}

impl Machine {
    /// The machine before its first tick. Both are dropped where memory runs out.
    pub fn load(alloc: Global, ready: Ready, script: Script) -> Result<Machine, NoMemory>
        ensures { IfOk result (λ machine. machine ≡ loaded ready script) }
    {
        let tasks = start_all(alloc, ready.image())?;
        Ok(Machine {
            ready,
            script,
            tasks,
            ticks: 0,
            turn: Turn {
                first: None,
                until: 0,
            },
        })
    }

    /// One tick, and the entry that it makes. It takes no memory and never refuses.
    pub fn tick(&mut self) -> Option<Entry>
        requires { self.old.machine.now < 10 ^ 12 }
        ensures run { self.new ≡ after_tick self.old }
        ensures entry { Tells result self.old.image.tasks self.new.machine.tasks (tick_of self.old).entry }
    {
        let tasks = self.tasks.as_mut_slice();
        let image = self.ready.image();
        let entry = step(image, &self.script, self.ticks, tasks, &mut self.turn);
        self.ticks += 1;
        entry
    }

    /// The words of the states of a task. After an `End` entry and before the next tick, the state that
    /// the entry shows.
    pub fn state(&self, task: u32) -> &[i64]
        requires { task < length self.now.image.tasks }
        ensures { result.now ≡ state_at self.now task }
    {
        self.tasks[task as usize].state()
    }

    /// The ticks so far.
    pub fn now(&self) -> u64
        ensures { result ≡ self.now.machine.now }
    {
        self.ticks
    }

    /// The image.
    pub fn ready(&self) -> &Ready
        ensures { result.now ≡ self.now.image }
    {
        &self.ready
    }
}
