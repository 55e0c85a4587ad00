ghost use Rattle.std.specs.Prelude.{◌≡◌, ◌⊎◌, IsTrue, map, string_bytes, None};
ghost use Rattle.tcel_tool.specs.Answer.{Does, status_of, writes};

use crate::command::Command;
use crate::program::{PROGRAM_LIMIT, program_of};
use crate::stages::load;
use crate::status::Status;
use std::alloc::Global;
use tcel_io::{Shelf, Sink};
use tcel_show::show;

/// Writes the canonical text of the program of word 1.
pub(crate) fn format<H: Shelf, K: Sink>(
    alloc: Global,
    words: &[String],
    shelf: &mut H,
    out: &mut K,
) -> Result<(), Status>
    ensures goes { Does Command.Format (map string_bytes words.now) (H.seen shelf.old) (H.seen shelf.new)
        (K.seen out.old) (K.seen out.new) (status_of result) None }
    ensures untouched { IsTrue (writes (status_of result)) ⊎ (out.new ≡ out.old) }
{
    let text = load(alloc, words, 1, PROGRAM_LIMIT, shelf)?;
    let program = program_of(alloc, &text)?;
    let canonical = show(alloc, &program)?;
    out.put(&canonical)?;
    Ok(())
}
