ghost use Rattle.std.specs.Prelude.{◌≡◌, ◌↔◌, ◌⊎◌, ℕ, List, [], Option, None, IsTrue, map, string_bytes, unwrap_or};
ghost use Rattle.tcel_io.specs.InTurn.{ArePut};
ghost use Rattle.tcel_tool.specs.Answer.{Agrees, Does, IsDecided, status_of, writes};
ghost use Rattle.tcel_tool.specs.Commands.{HasForm, HaveNoForm};
ghost use Rattle.tcel_tool.specs.CommandLine.{word_at};
ghost use Rattle.tcel_tool.specs.CompileCommand.{IsCompiled};
ghost use Rattle.tcel_tool.specs.FaultLine.{fault_pieces};
ghost use Rattle.tcel_tool.specs.declared.command.Command.{Command};
ghost use Rattle.tcel_tool.specs.declared.status.Status.{Status};

use crate::analyse::analyse;
use crate::check::check;
use crate::command::{Command, command_of};
use crate::compile::compile;
use crate::fault_line::put_fault_line;
use crate::fewest::fewest;
use crate::format::format;
use crate::judge::judge;
use crate::linked::linked;
use crate::make::make;
use crate::mean::mean;
use crate::run::run;
use crate::status::Status;
use crate::timeline::timeline;
use crate::trial::trial;
use std::alloc::Global;
use tcel_io::{Shelf, Sink};
use tcel_num::Name;

/// Runs the command of these words, over the shelf's files. What it writes goes to `out`, and the fault line of a refusal to `err` (docs/commands.md).
pub fn tcel<H: Shelf, K: Sink>(
    alloc: Global,
    words: &[String],
    shelf: &mut H,
    out: &mut K,
    err: &mut K,
) -> Status
    // Words that are a command's: it went through its stages, up to the first that stopped it, and then put its text. The fault line was put in its
    // pieces, with the name of the task that the status tells, up to the first fault of `err`.
    ensures answer { let texts = map string_bytes words.now in (task : Option (List ℕ))
        × ((command : Command) → HasForm command texts →
        Does command texts (H.seen shelf.old) (H.seen shelf.new) (K.seen out.old) (K.seen out.new) result task)
        × ArePut (fault_pieces texts result (unwrap_or task [])) (K.seen err.old) (K.seen err.new) }

    // Other words: nothing was done.
    ensures words { (result ≡ Status.Words) ↔ HaveNoForm (map string_bytes words.now) }
    ensures no_loads { result ≡ Status.Words → H.seen shelf.new ≡ H.seen shelf.old }
    ensures untouched { IsTrue (writes result) ⊎ (out.new ≡ out.old) }

    // Where the bytes of the files are told, they decide the status, but for memory and for reads and puts that fail.
    ensures exact { (command : Command) (status : Status) → HasForm command (map string_bytes words.now)
        → IsDecided command (H.seen shelf.old).told (map string_bytes words.now) status → Agrees status result }

    // After Ok of `compile`, every run of the written image meets the program.
    ensures headline { let texts = map string_bytes words.now in HasForm Command.Compile texts → result ≡ Status.Ok
        → IsCompiled ((H.seen shelf.old).told (word_at texts 1)) ((H.seen shelf.old).told (word_at texts 2)) (K.seen out.old).taken (K.seen out.new).taken }
{
    let mut task = None;
    let status = answer(alloc, words, shelf, out, &mut task);
    put_fault_line(words, &status, name_bytes(&task), err);
    status
}

/// The name of a task, or nothing where there is none.
pub(crate) fn name_bytes(task: &Option<Name>) -> &[u8]
    ensures { result.now ≡ unwrap_or task.now [] }
{
    match task {
        Some(name) => name.bytes(),
        None => b"",
    }
}

/// Runs the command, and leaves the fault line out. Where the status tells a task, `task` becomes its name.
fn answer<H: Shelf, K: Sink>(
    alloc: Global,
    words: &[String],
    shelf: &mut H,
    out: &mut K,
    task: &mut Option<Name>,
) -> Status
    requires { task.old ≡ None }
    ensures answer { (command : Command) → HasForm command (map string_bytes words.now)
        → Does command (map string_bytes words.now) (H.seen shelf.old) (H.seen shelf.new) (K.seen out.old) (K.seen out.new) result task.new }
    ensures words { (result ≡ Status.Words) ↔ HaveNoForm (map string_bytes words.now) }
    ensures no_loads { result ≡ Status.Words → H.seen shelf.new ≡ H.seen shelf.old }
    ensures untouched { IsTrue (writes result) ⊎ (out.new ≡ out.old) }
{
    let Some(command) = command_of(words) else {
        return Status::Words;
    };
    match body(alloc, command, words, shelf, out, task) {
        Ok(()) => Status::Ok,
        Err(status) => status,
    }
}

/// Runs this command.
fn body<H: Shelf, K: Sink>(
    alloc: Global,
    command: Command,
    words: &[String],
    shelf: &mut H,
    out: &mut K,
    task: &mut Option<Name>,
) -> Result<(), Status>
    requires form { HasForm command (map string_bytes words.now) }
    requires task { task.old ≡ None }
    ensures goes { Does command (map string_bytes words.now) (H.seen shelf.old) (H.seen shelf.new)
        (K.seen out.old) (K.seen out.new) (status_of result) task.new }
    ensures untouched { IsTrue (writes (status_of result)) ⊎ (out.new ≡ out.old) }
{
    match command {
        Command::Compile => compile(alloc, words, shelf, out, task),
        Command::Run => run(alloc, words, shelf, out),
        Command::Format => format(alloc, words, shelf, out),
        Command::Check => check(alloc, words, shelf, out),
        Command::Mean => mean(alloc, words, shelf, out),
        Command::Analyse => analyse(alloc, words, shelf, out, task),
        Command::Timeline => timeline(alloc, words, shelf, out, task),
        Command::Linked => linked(alloc, words, shelf, out, task),
        Command::Fewest => fewest(alloc, words, shelf, out, task),
        Command::Make => make(alloc, words, out),
        Command::Trial => trial(alloc, words, out, task),
        Command::Judge => judge(alloc, words, shelf, out, task),
    }
}
