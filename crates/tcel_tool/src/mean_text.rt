ghost use Rattle.std.specs.Prelude.{◌≡◌, ◌≤◌, ◌++◌, [], IfOk, OnOk, length, map, slice_index_or};
ghost use Rattle.std.specs.List.{flat_map};
ghost use Rattle.tcel_core.specs.Cells.{all_words};
ghost use Rattle.tcel_core.specs.Frames.{state_of};
ghost use Rattle.tcel_core.specs.Plain.{plain_set, plain_task};
ghost use Rattle.tcel_core.specs.Sound.{IsSoundSet, IsSoundTask};
ghost use Rattle.tcel_image.specs.TraceText.{port_text};
ghost use Rattle.tcel_tool.specs.MeanText.{end_line, event_line, frame_text, head_text, task_text, tasks_text, value_text, window_text};

use crate::state_text::put_states;
use crate::writing::{put, put_number};
use std::alloc::Global;
use tcel_core::{Cells, CoreTask, Event, EventKind, Inputs, Set, frame};
use tcel_num::{Name, NoMemory};
use tcel_script::Script;

/// What the tasks of the set do in so many frames, on the values of the script (docs/formats.md).
pub(crate) fn mean_text(
    alloc: Global,
    set: &Set,
    script: &Script,
    frames: u64,
) -> Result<Vec<u8>, NoMemory>
    requires sound { IsSoundSet (plain_set set.now) }
    requires streams { length script.now ≡ length set.now.tasks }
    ensures { IfOk result (λ text. text.items ≡ tasks_text frames 0 (plain_set set.now) script.now) }
{
    let mut text = Vec::new(alloc);
    for (number, task) in set.tasks.as_slice().iter().enumerate() {
        let lists = script.lists(alloc, number)?;
        put_task(alloc, &mut text, task, lists, frames)?;
    }
    Ok(text)
}

/// The frames of a task, of which the inputs have these values.
fn put_task(
    alloc: Global,
    out: &mut Vec<u8>,
    task: &CoreTask,
    lists: Vec<Vec<i64>>,
    frames: u64,
) -> Result<(), NoMemory>
    requires { IsSoundTask (plain_task task.now) }
    ensures { OnOk result (out.new.items ≡ out.old.items ++ task_text (plain_task task.now) (map (λ list. list.items) lists.items) frames) }
{
    let mut cells = Cells::start(alloc, task)?;
    let mut inputs = Inputs::new(alloc, lists)?;
    let mut events = Vec::new(alloc);
    for number in 0..frames {
        events.clear();
        frame(task, &mut cells, &mut inputs, &mut events)?;
        put_frame(out, task, number, &events, &cells)?;
    }
    Ok(())
}

/// The events of a frame and its end, where the next frame starts with these words.
fn put_frame(
    out: &mut Vec<u8>,
    task: &CoreTask,
    number: u64,
    events: &[Event],
    cells: &Cells,
) -> Result<(), NoMemory>
    requires words { length cells.now ≡ all_words task.now.vars }
    requires small { all_words task.now.vars ≤ 4096 }
    ensures { OnOk result (out.new.items ≡ out.old.items
        ++ frame_text (plain_task task.now) number (record { events = events.now; state = state_of task.now.vars cells.now })) }
{
    put_events(out, task, number, events)?;
    put_end(out, task, number, cells)
}

fn put_events(
    out: &mut Vec<u8>,
    task: &CoreTask,
    number: u64,
    events: &[Event],
) -> Result<(), NoMemory>
    ensures { OnOk result (out.new.items ≡ out.old.items ++ flat_map (event_line (plain_task task.now) number) events.now) }
{
    for event in events {
        put_event(out, task, number, *event)?;
    }
    Ok(())
}

fn put_event(out: &mut Vec<u8>, task: &CoreTask, number: u64, event: Event) -> Result<(), NoMemory>
    ensures { OnOk result (out.new.items ≡ out.old.items ++ event_line (plain_task task.now) number event) }
{
    put_head(out, &task.name, number)?;
    put_moved(out, task, event)?;
    put_window(out, event)
}

fn put_end(out: &mut Vec<u8>, task: &CoreTask, number: u64, cells: &Cells) -> Result<(), NoMemory>
    requires words { length cells.now ≡ all_words task.now.vars }
    requires small { all_words task.now.vars ≤ 4096 }
    ensures { OnOk result (out.new.items ≡ out.old.items ++ end_line (plain_task task.now) number (state_of task.now.vars cells.now)) }
{
    put_head(out, &task.name, number)?;
    put(out, b"end")?;
    put_states(out, task.vars.as_slice(), cells)?;
    put(out, b"\n")
}

/// The task and the frame.
fn put_head(out: &mut Vec<u8>, task: &Name, number: u64) -> Result<(), NoMemory>
    ensures { OnOk result (out.new.items ≡ out.old.items ++ head_text task.now number) }
{
    put(out, task.bytes())?;
    put(out, b" ")?;
    put_number(out, number)?;
    put(out, b" ")
}

/// What came from an input or went to an output.
fn put_moved(out: &mut Vec<u8>, task: &CoreTask, event: Event) -> Result<(), NoMemory>
    ensures { OnOk result (out.new.items ≡ out.old.items ++ value_text (plain_task task.now) event.kind event.port event.value) }
{
    match event.kind {
        EventKind::Receive => {
            put(out, b"receive ")?;
            put_port(out, task.inputs.as_slice(), event.port, event.value)
        }
        EventKind::Send => {
            put(out, b"send ")?;
            put_port(out, task.outputs.as_slice(), event.port, event.value)
        }
    }
}

/// The port of this number, and the value.
fn put_port(out: &mut Vec<u8>, names: &[Name], port: u32, value: i64) -> Result<(), NoMemory>
    ensures { OnOk result (out.new.items ≡ out.old.items ++ port_text names.now port value) }
{
    put_name_at(out, names, port)?;
    put(out, b" ")?;
    put_number(out, value)
}

/// The name at this place, and nothing where there is none.
fn put_name_at(out: &mut Vec<u8>, names: &[Name], place: u32) -> Result<(), NoMemory>
    ensures { OnOk result (out.new.items ≡ out.old.items ++ slice_index_or names.now place []) }
{
    match names.get(place as usize) {
        None => Ok(()),
        Some(name) => put(out, name.bytes()),
    }
}

fn put_window(out: &mut Vec<u8>, event: Event) -> Result<(), NoMemory>
    ensures { OnOk result (out.new.items ≡ out.old.items ++ window_text event) }
{
    put(out, b" ")?;
    put_number(out, event.earliest)?;
    put(out, b" ")?;
    put_number(out, event.latest)?;
    put(out, b"\n")
}
