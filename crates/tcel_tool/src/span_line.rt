ghost use Rattle.std.specs.Prelude.{◌≡◌, ◌+◌, ◌≤◌, ◌++◌, IfOk, length, vec_capacity};
ghost use Rattle.std.specs.Fmt.{decimal};
ghost use Rattle.tcel_core.specs.Plain.{plain_set};
ghost use Rattle.tcel_tool.specs.Spans.{label, span_line};

use crate::spans::Span;
use std::alloc::Global;
use tcel_core::Set;
use tcel_num::NoMemory;

/// The most bytes of a line: two numbers of 20 digits, a name of 32 bytes, two blanks and a line feed.
const LONGEST_LINE: usize = 75;

/// An empty line with room for the longest one.
pub(crate) fn empty_line(alloc: Global) -> Result<Vec<u8>, NoMemory>
    ensures { IfOk result (λ line. 75 ≤ vec_capacity line) }
{
    Ok(Vec::with_capacity(alloc, LONGEST_LINE)?)
}

/// Leaves in `line` exactly the span's line (docs/formats.md). It takes no memory.
pub(crate) fn write_line(line: &mut Vec<u8>, set: &Set, span: Span)
    requires { 75 ≤ vec_capacity line.old }
    ensures text { line.new.items ≡ span_line (plain_set set.now) span }
    ensures room { 75 ≤ vec_capacity line.new }
{
    line.clear();
    push_number(line, span.start);
    push(line, b" ");
    push_number(line, span.end);
    push(line, b" ");
    push(line, label(set, span.task));
    push(line, b"\n");
}

/// The task's name, or `idle` where there is no task.
fn label(set: &Set, task: Option<usize>) -> &[u8]
    ensures text { result.now ≡ label (plain_set set.now) task }
    ensures short { length result.now ≤ 32 }
{
    let Some(number) = task else {
        return b"idle";
    };
    match set.tasks.as_slice().get(number) {
        Some(task) => task.name.bytes(),
        None => b"",
    }
}

/// Appends a piece, for which there is room.
fn push(line: &mut Vec<u8>, piece: &[u8])
    requires { length line.old.items + length piece.now ≤ vec_capacity line.old }
    ensures bytes { line.new.items ≡ line.old.items ++ piece.now }
    ensures length { length line.new.items ≡ length line.old.items + length piece.now }
    ensures room { vec_capacity line.old ≤ vec_capacity line.new }
{
    line.extend_from_slice(piece).unwrap();
}

/// Appends a number's digits, where there is room for 20.
fn push_number(line: &mut Vec<u8>, number: u64)
    requires { length line.old.items + 20 ≤ vec_capacity line.old }
    ensures bytes { line.new.items ≡ line.old.items ++ decimal number }
    ensures short { length line.new.items ≤ length line.old.items + 20 }
    ensures room { vec_capacity line.old ≤ vec_capacity line.new }
{
    push(line, itoa::Buffer::new().format(number).as_bytes());
}
