ghost use Rattle.std.specs.Prelude.{◌≡◌, ◌⊎◌, IsTrue, map, string_bytes};
ghost use Rattle.tcel_tool.specs.Answer.{Does, status_of, writes};

use crate::command::Command;
use crate::fewest_text::fewest_text;
use crate::formed::forms_for;
use crate::status::Status;
use std::alloc::Global;
use tcel_io::{Shelf, Sink};
use tcel_num::Name;

/// Writes the fewest tasks that have to be sliced, of the program of word 1 for the target of word 2, and what is wrong with each set of tasks before.
/// Where the status of a refusal tells a task, `task` becomes its name.
pub(crate) fn fewest<H: Shelf, K: Sink>(
    alloc: Global,
    words: &[String],
    shelf: &mut H,
    out: &mut K,
    task: &mut Option<Name>,
) -> Result<(), Status>
    ensures goes { Does Command.Fewest (map string_bytes words.now) (H.seen shelf.old) (H.seen shelf.new)
        (K.seen out.old) (K.seen out.new) (status_of result) task.new }
    ensures untouched { IsTrue (writes (status_of result)) ⊎ (out.new ≡ out.old) }
{
    let formed = forms_for(alloc, words, shelf, task)?;
    let text = fewest_text(alloc, &formed)?;
    out.put(&text)?;
    Ok(())
}
