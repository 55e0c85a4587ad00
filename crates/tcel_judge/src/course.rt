ghost use Rattle.std.specs.Prelude.{◌≡◌, ◌+◌, ◌<◌, ◌^◌, List, ℤ, [], Some, IfOk, length, slice_index_or};
ghost use Rattle.tcel_code.specs.Layout.{states_of};
ghost use Rattle.tcel_core.specs.Cells.{all_words};
ghost use Rattle.tcel_core.specs.Plain.{plain_task};
ghost use Rattle.tcel_core.specs.Promises.{Behavior, event_promise, promises, what_of};
ghost use Rattle.tcel_core.specs.Sound.{IsSoundTask};
ghost use Rattle.tcel_image.specs.TraceText.{states_text};
ghost use Rattle.tcel_judge.specs.FirstBreach.{promise_at};
ghost use Rattle.tcel_judge.specs.Courses.{IsNextFrame, Stands, judged, judged_on, place, promised, shown};
ghost use Rattle.tcel_script.specs.Script.{same};

use crate::states::is_state_text;
use std::alloc::Global;
use tcel_core::{Cells, CoreTask, Event, EventKind, Inputs, frame};
use tcel_num::NoMemory;
use tcel_script::Script;

/// What a task is to do on a script, entry by entry: its frames are evaluated one after another.
#[derive(Drop)]
pub(crate) struct Course<'a> {
    pub(crate) task: &'a CoreTask,
    script: &'a Script,
    /// The task's number in the script, from 0.
    number: usize,
    /// The frame that is in progress, from 0.
    frame: u64,
    /// How many of its entries are passed.
    passed: usize,
    /// Its events.
    events: Vec<Event>,
    // what the next frame starts with
    cells: Cells,
    inputs: Inputs,
}

/// The entry that a task is to make next: its frame, its number in the frame, from 0, and its earliest and
/// latest time, in ticks. That it has no latest time is None (docs/analysis.md).
#[derive(Clone, Copy, Debug)]
pub(crate) struct Coming {
    pub(crate) frame: u64,
    pub(crate) number: u64,
    pub(crate) what: ComingWhat,
    pub(crate) earliest: u128,
    pub(crate) latest: Option<u128>,
}

/// What such an entry shows; `End` stands for the end with the state after the frame.
#[derive(Clone, Copy, Debug)]
pub(crate) enum ComingWhat {
    Receive { port: u32, value: i64 },
    Send { port: u32, value: i64 },
    First,
    End,
}

impl<'a> Course<'a> {
    /// A task before its first entry; it has this number in the script.
    pub(crate) fn new(
        alloc: Global,
        task: &'a CoreTask,
        script: &'a Script,
        number: usize,
    ) -> Result<Course<'a>, NoMemory>
        requires sound { IsSoundTask (plain_task task.now) }
        requires there { number < length script.now }
        ensures stands { IfOk result Stands }
        ensures judged { IfOk result (λ course. judged course
            ≡ judged_on (plain_task task.now) (slice_index_or script.now number [])) }
        ensures place { IfOk result (λ course. place course ≡ 0) }
    {
        let lists = script.lists(alloc, number)?;
        let mut cells = Cells::start(alloc, task)?;
        let mut inputs = Inputs::new(alloc, lists)?;
        let mut events = Vec::new(alloc);
        next_frame(task, &mut cells, &mut inputs, &mut events)?;
        Ok(Course {
            task,
            script,
            number,
            frame: 0,
            passed: 0,
            events,
            cells,
            inputs,
        })
    }

    /// The entry that the task is to make next.
    pub(crate) fn entry(&self) -> Coming
        requires { Stands self.now }
        ensures there { promise_at (judged self.now).does (place self.now) ≡ Some (promised (judged self.now).does result) }
        ensures number { place self.now ≡ length (promises (judged self.now).does result.frame) + result.number }
        ensures frame { result.frame ≡ self.now.frame }
    {
        let frame = self.frame;
        let number = self.passed as u64;
        let release = u128::from(frame) * u128::from(self.task.period);
        let made = self.events.len();
        if self.passed < made {
            return event_entry(frame, number, release, self.events[self.passed]);
        }
        if self.passed == made {
            return Coming {
                frame,
                number,
                what: ComingWhat::First,
                earliest: 0,
                latest: Some(release + u128::from(self.task.finish)),
            };
        }
        Coming {
            frame,
            number,
            what: ComingWhat::End,
            earliest: 0,
            latest: None,
        }
    }

    /// Whether this is the text of the state after the frame in progress.
    pub(crate) fn leaves(&self, text: &[u8]) -> bool
        requires { Stands self.now }
        ensures { result ≡ same text.now
            (states_text (states_of self.now.task.now.vars) ((judged self.now).does.frames self.now.frame).state) }
    {
        is_state_text(text, self.task.vars.as_slice(), &self.cells)
    }

    /// Goes one entry on. After NoMemory the course is of no use.
    pub(crate) fn pass(&mut self) -> Result<(), NoMemory>
        requires stands { Stands self.old }
        requires frame { self.old.frame < 2 ^ 63 }
        ensures stands { IfOk result (λ _. Stands self.new) }
        ensures judged { IfOk result (λ _. judged self.new ≡ judged self.old) }
        ensures place { IfOk result (λ _. place self.new ≡ place self.old + 1) }
    {
        if self.passed < self.events.len() + 1 {
            self.passed += 1;
            return Ok(());
        }
        next_frame(
            self.task,
            &mut self.cells,
            &mut self.inputs,
            &mut self.events,
        )?;
        self.frame += 1;
        self.passed = 0;
        Ok(())
    }
}

/// Runs the next frame of a task; its events replace the last one's.
fn next_frame(
    task: &CoreTask,
    cells: &mut Cells,
    inputs: &mut Inputs,
    events: &mut Vec<Event>,
) -> Result<(), NoMemory>
    requires sound { IsSoundTask (plain_task task.now) }
    requires words { length cells.old ≡ all_words task.now.vars }
    ensures ran { IfOk result (λ _. IsNextFrame (plain_task task.now) cells.old inputs.old cells.new inputs.new events.new.items) }
    ensures words { length cells.new ≡ all_words task.now.vars }
{
    events.clear();
    frame(task, cells, inputs, events)
}

/// The entry of an event of this frame, which is released at this time, with this number in it.
fn event_entry(frame: u64, number: u64, release: u128, event: Event) -> Coming
    requires { release < 2 ^ 96 }
    ensures frame { result.frame ≡ frame }
    ensures number { result.number ≡ number }
    ensures promise { (b : Behavior) → promised b result ≡ event_promise frame release event }
{
    Coming {
        frame,
        number,
        what: shown_by(event),
        earliest: release + u128::from(event.earliest),
        latest: Some(release + u128::from(event.latest)),
    }
}

/// What the entry of an event shows.
fn shown_by(event: Event) -> ComingWhat
    ensures { (state : List ℤ) → shown state result ≡ what_of event.kind event.port event.value }
{
    match event.kind {
        EventKind::Receive => ComingWhat::Receive {
            port: event.port,
            value: event.value,
        },
        EventKind::Send => ComingWhat::Send {
            port: event.port,
            value: event.value,
        },
    }
}
