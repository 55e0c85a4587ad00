ghost use Rattle.std.specs.Prelude.{◌≡◌, ◌⊎◌, IsTrue, None, map, string_bytes};
ghost use Rattle.tcel_tool.specs.Answer.{Does, status_of, writes};

use crate::command::Command;
use crate::program::{PROGRAM_LIMIT, program_of, set_of};
use crate::stages::load;
use crate::status::Status;
use std::alloc::Global;
use tcel_io::{Shelf, Sink};

/// Writes `ok` where the program of word 1 has no fault.
pub(crate) fn check<H: Shelf, K: Sink>(
    alloc: Global,
    words: &[String],
    shelf: &mut H,
    out: &mut K,
) -> Result<(), Status>
    ensures goes { Does Command.Check (map string_bytes words.now) (H.seen shelf.old) (H.seen shelf.new)
        (K.seen out.old) (K.seen out.new) (status_of result) None }
    ensures untouched { IsTrue (writes (status_of result)) ⊎ (out.new ≡ out.old) }
{
    let text = load(alloc, words, 1, PROGRAM_LIMIT, shelf)?;
    let program = program_of(alloc, &text)?;
    set_of(alloc, &program)?;
    out.put(b"ok\n")?;
    Ok(())
}
