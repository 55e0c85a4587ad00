ghost use Rattle.std.specs.Prelude.{◌≡◌, Some, None, codes, IfOk, IfSome, IfNone};
ghost use Rattle.tcel_trace.specs.Reading.{head_in, line_in, what_in, event_in, behind, port_in, end_in};

use crate::cut::{behind, cut};
use crate::read_states::are_states;
use crate::state_text::StateText;
use crate::trace_line::{LineWhat, TraceLine};
use crate::words::{name_in, number_in, signed_in};
use std::alloc::Global;
use tcel_num::{Name, NoMemory};

/// The time, the task and the frame of a line, and the text behind them.
#[derive(Drop)]
struct Head<'a> {
    time: u64,
    task: Name,
    frame: u64,
    what: &'a [u8],
}

/// What a line without its line feed says, or None where it has not the form of one.
pub(crate) fn line_in(alloc: Global, text: &[u8]) -> Result<Option<TraceLine>, NoMemory>
    ensures { IfOk result (λ found. found ≡ line_in text.now) }
{
    let Some(head) = head_in(text) else {
        return Ok(None);
    };
    let Some(what) = what_in(alloc, head.what)? else {
        return Ok(None);
    };
    Ok(Some(TraceLine {
        time: head.time,
        task: head.task,
        frame: head.frame,
        what,
    }))
}

fn head_in(text: &[u8]) -> Option<Head<'_>>
    ensures none { IfNone result (head_in text.now ≡ None) }
    ensures found { IfSome result (λ head. head_in text.now ≡ Some (record { time = head.time; task = head.task; frame = head.frame; what = head.what.now })) }
{
    let (time, rest) = cut(text, b' ')?;
    let (task, rest) = cut(rest, b' ')?;
    let (frame, what) = cut(rest, b' ')?;
    Some(Head {
        time: number_in(time)?,
        task: name_in(task)?,
        frame: number_in(frame)?,
        what,
    })
}

fn what_in(alloc: Global, text: &[u8]) -> Result<Option<LineWhat>, NoMemory>
    ensures { IfOk result (λ found. found ≡ what_in text.now) }
{
    if text == b"first".as_slice() {
        return Ok(Some(LineWhat::First));
    }
    if let Some(rest) = behind(text, b"end") {
        return end_in(alloc, rest);
    }
    Ok(event_in(text))
}

fn event_in(text: &[u8]) -> Option<LineWhat>
    ensures { result ≡ event_in text.now (behind (codes "receive ") text.now) }
{
    if let Some(rest) = behind(text, b"receive ") {
        let (port, value) = port_in(rest)?;
        return Some(LineWhat::Receive { port, value });
    }
    let (port, value) = port_in(behind(text, b"send ")?)?;
    Some(LineWhat::Send { port, value })
}

/// A port and a value.
fn port_in(text: &[u8]) -> Option<(Name, i64)>
    ensures { result ≡ port_in text.now }
{
    let (port, value) = cut(text, b' ')?;
    Some((name_in(port)?, signed_in(value)?))
}

fn end_in(alloc: Global, bytes: &[u8]) -> Result<Option<LineWhat>, NoMemory>
    ensures { IfOk result (λ found. found ≡ end_in bytes.now) }
{
    if !are_states(bytes) {
        return Ok(None);
    }
    let state = StateText::new(alloc, bytes)?;
    Ok(Some(LineWhat::End { state }))
}
