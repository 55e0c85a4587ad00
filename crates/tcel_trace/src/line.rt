ghost use Rattle.std.specs.Prelude.{◌≡◌, ◌+◌, ◌*◌, ◌≤◌, ◌++◌, [], length, slice_index_or};
ghost use Rattle.tcel_image.specs.Spelling.{state_words};
ghost use Rattle.tcel_image.specs.TraceText.{port_text, what_text, line_of, line};
ghost use Rattle.tcel_machine.specs.Seen.{seen};
ghost use Rattle.tcel_machine.specs.Run.{entry_seen};
ghost use Rattle.tcel_trace.specs.Pieces.{plain_entry, head_text};
ghost use Rattle.tcel_trace.specs.Room.{HasRoom};

use crate::buffer::Buffer;
use crate::numbers::{put_decimal, put_signed};
use crate::states::put_states;
use tcel_image::ImageTask;
use tcel_machine::{Entry, Machine, What};
use tcel_num::Name;

/// The name at this place, and nothing where there is none.
fn put_name(buffer: &mut Buffer, names: &[Name], place: u32)
    requires { length buffer.old.bytes + 32 ≤ buffer.old.room }
    ensures bytes { buffer.new.bytes ≡ buffer.old.bytes ++ slice_index_or names.now place [] }
    ensures short { length buffer.new.bytes ≤ length buffer.old.bytes + 32 }
    ensures room { buffer.old.room ≤ buffer.new.room }
{
    if let Some(name) = names.get(place as usize) {
        buffer.push(name.bytes());
    }
}

fn put_port(buffer: &mut Buffer, names: &[Name], port: u32, value: i64)
    requires { length buffer.old.bytes + 53 ≤ buffer.old.room }
    ensures bytes { buffer.new.bytes ≡ buffer.old.bytes ++ port_text names.now port value }
    ensures short { length buffer.new.bytes ≤ length buffer.old.bytes + 53 }
    ensures room { buffer.old.room ≤ buffer.new.room }
{
    put_name(buffer, names, port);
    buffer.push(b" ");
    put_signed(buffer, value);
}

fn put_what(buffer: &mut Buffer, task: &ImageTask, what: What, state: &[i64])
    requires { length buffer.old.bytes + 61 + 54 * length task.now.states + 21 * state_words task.now.states ≤ buffer.old.room }
    ensures bytes { buffer.new.bytes ≡ buffer.old.bytes ++ what_text task.now (seen state.now what) }
    ensures short { length buffer.new.bytes ≤ length buffer.old.bytes + 61 + 54 * length task.now.states + 21 * state_words task.now.states }
    ensures room { buffer.old.room ≤ buffer.new.room }
{
    match what {
        What::Receive { port, value } => {
            buffer.push(b"receive ");
            put_port(buffer, task.inputs.as_slice(), port, value);
        }
        What::Send { port, value } => {
            buffer.push(b"send ");
            put_port(buffer, task.outputs.as_slice(), port, value);
        }
        What::First => buffer.push(b"first"),
        What::End => {
            buffer.push(b"end");
            put_states(buffer, task.states.as_slice(), state);
        }
    }
}

fn put_head(buffer: &mut Buffer, task: &Name, time: u64, frame: u64)
    requires { length buffer.old.bytes + 75 ≤ buffer.old.room }
    ensures bytes { buffer.new.bytes ≡ buffer.old.bytes ++ head_text task.now time frame }
    ensures short { length buffer.new.bytes ≤ length buffer.old.bytes + 75 }
    ensures room { buffer.old.room ≤ buffer.new.room }
{
    put_decimal(buffer, time);
    buffer.push(b" ");
    buffer.push(task.bytes());
    buffer.push(b" ");
    put_decimal(buffer, frame);
    buffer.push(b" ");
}

fn put_task_line(buffer: &mut Buffer, task: &ImageTask, entry: &Entry, state: &[i64])
    requires { length buffer.old.bytes + 137 + 54 * length task.now.states + 21 * state_words task.now.states ≤ buffer.old.room }
    ensures bytes { buffer.new.bytes ≡ buffer.old.bytes ++ line_of task.now (plain_entry state.now entry.now) }
    ensures short { length buffer.new.bytes ≤ length buffer.old.bytes + 137 + 54 * length task.now.states + 21 * state_words task.now.states }
    ensures room { buffer.old.room ≤ buffer.new.room }
{
    put_head(buffer, &task.name, entry.time, entry.frame);
    put_what(buffer, task, entry.what, state);
    buffer.push(b"\n");
}

/// Leaves in the buffer exactly the line of the last tick's entry (docs/formats.md). The state is the one
/// that the machine has now; of a task that the image has not there is no line. It takes no memory.
pub fn put_entry(buffer: &mut Buffer, machine: &Machine, entry: &Entry)
    requires { HasRoom buffer.old.room machine.now.image }
    ensures line { buffer.new.bytes ≡ line machine.now.image (entry_seen machine.now.image.tasks machine.now.machine.tasks entry.now) }
    ensures room { HasRoom buffer.new.room machine.now.image }
{
    buffer.clear();
    if let Some(task) = machine.ready().image().tasks.get(entry.task as usize) {
        put_task_line(buffer, task, entry, machine.state(entry.task));
    }
}
