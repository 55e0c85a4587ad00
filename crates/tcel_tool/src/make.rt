ghost use Rattle.std.specs.Prelude.{◌≡◌, ◌⊎◌, IsTrue, None, map, string_bytes};
ghost use Rattle.tcel_io.specs.Shelf.{SeenShelf};
ghost use Rattle.tcel_tool.specs.Answer.{Does, status_of, writes};
ghost use Rattle.tcel_tool.specs.Commands.{HasForm};

use crate::command::Command;
use crate::stages::{number_at, number_up_to};
use crate::status::{CountKind, Status};
use std::alloc::Global;
use tcel_io::Sink;

/// The most tasks of a made program.
pub(crate) const MADE_TASKS: u64 = 16;

/// Writes the program of the number of tasks of word 2 that the seed of word 1 stands for. It reads no file.
pub(crate) fn make<K: Sink>(alloc: Global, words: &[String], out: &mut K) -> Result<(), Status>
    requires { HasForm Command.Make (map string_bytes words.now) }
    ensures goes { (shelf : SeenShelf) → Does Command.Make (map string_bytes words.now) shelf shelf
        (K.seen out.old) (K.seen out.new) (status_of result) None }
    ensures untouched { IsTrue (writes (status_of result)) ⊎ (out.new ≡ out.old) }
{
    let tasks = number_up_to(words, 2, CountKind::MadeTasks, MADE_TASKS)?;
    let text = tcel_make::make(alloc, number_at(words, 1), tasks as u8)?;
    out.put(&text)?;
    Ok(())
}
