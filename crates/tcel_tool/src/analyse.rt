ghost use Rattle.std.specs.Prelude.{◌≡◌, ◌⊎◌, IsTrue, map, string_bytes};
ghost use Rattle.tcel_tool.specs.Answer.{Does, status_of, writes};

use crate::choice::choose_for;
use crate::command::Command;
use crate::report::report_on;
use crate::status::Status;
use std::alloc::Global;
use tcel_io::{Shelf, Sink};
use tcel_num::Name;

/// Writes the report on the program of word 1 for the target of word 2. Where the status of a refusal tells a task, `task` becomes its name.
pub(crate) fn analyse<H: Shelf, K: Sink>(
    alloc: Global,
    words: &[String],
    shelf: &mut H,
    out: &mut K,
    task: &mut Option<Name>,
) -> Result<(), Status>
    ensures goes { Does Command.Analyse (map string_bytes words.now) (H.seen shelf.old) (H.seen shelf.new)
        (K.seen out.old) (K.seen out.new) (status_of result) task.new }
    ensures untouched { IsTrue (writes (status_of result)) ⊎ (out.new ≡ out.old) }
{
    let chosen = choose_for(alloc, words, shelf, task)?;
    let report = report_on(alloc, &chosen)?;
    out.put(&report)?;
    Ok(())
}
