ghost use Rattle.std.specs.Prelude.{◌≡◌, ◌⊎◌, IsTrue, map, string_bytes};
ghost use Rattle.tcel_tool.specs.Answer.{Does, status_of, writes};
ghost use Rattle.tcel_tool.specs.Commands.{HasForm};

use crate::choice::choose_for;
use crate::command::Command;
use crate::run::MOST_TICKS;
use crate::span_line::empty_line;
use crate::spans::put_spans;
use crate::stages::number_up_to;
use crate::status::{CountKind, Status};
use std::alloc::Global;
use tcel_io::{Shelf, Sink};
use tcel_num::Name;

/// Writes whom the schedule of the program of word 1 for the target of word 2 serves in the number of ticks of word 3. Where the status of a refusal
/// tells a task, `task` becomes its name.
pub(crate) fn timeline<H: Shelf, K: Sink>(
    alloc: Global,
    words: &[String],
    shelf: &mut H,
    out: &mut K,
    task: &mut Option<Name>,
) -> Result<(), Status>
    requires { HasForm Command.Timeline (map string_bytes words.now) }
    ensures goes { Does Command.Timeline (map string_bytes words.now) (H.seen shelf.old) (H.seen shelf.new)
        (K.seen out.old) (K.seen out.new) (status_of result) task.new }
    ensures untouched { IsTrue (writes (status_of result)) ⊎ (out.new ≡ out.old) }
{
    let ticks = number_up_to(words, 3, CountKind::Ticks, MOST_TICKS)?;
    let chosen = choose_for(alloc, words, shelf, task)?;
    let plans = chosen.choice.plans.as_slice();
    let mut line = empty_line(alloc)?;
    put_spans(&chosen.set, plans, ticks, &mut line, out)?;
    Ok(())
}
