ghost use Rattle.std.specs.Prelude.{◌≡◌, ◌≤◌, ◌⊎◌, IfErr, IfOk, IfSome, IsTrue, OnOk, length, map, string_bytes};
ghost use Rattle.tcel_core.specs.Plain.{plain_set};
ghost use Rattle.tcel_judge.specs.declared.verdict.Verdict.TheVariants.{Yes};
ghost use Rattle.tcel_trace.specs.TraceForm.{IsTrace};
ghost use Rattle.tcel_tool.specs.Answer.{Does, OrMemory, status_of, writes};
ghost use Rattle.tcel_tool.specs.Chosen.{plain_choice};
ghost use Rattle.tcel_tool.specs.Commands.{HasForm};
ghost use Rattle.tcel_tool.specs.JudgeCommand.{IsBreach, RefusesTrace, SaysOf};
ghost use Rattle.tcel_tool.specs.SetChoice.{IsBest, Names, name_at, told_task};
ghost use Rattle.tcel_tool.specs.declared.status.Status.TheVariants.{Breach as breached};

use crate::choice::{ChosenSet, choose_for, name_at};
use crate::command::Command;
use crate::mean::script_of;
use crate::run::MOST_TICKS;
use crate::script::SCRIPT_LIMIT;
use crate::stages::{load, number_up_to};
use crate::status::{CountKind, Status};
use std::alloc::Global;
use tcel_core::Set;
use tcel_io::{Shelf, Sink};
use tcel_judge::{Breach, Verdict};
use tcel_num::Name;
use tcel_script::Script;
use tcel_trace::{TraceFail, TraceLine, read_trace};

/// The most bytes of a trace.
const TRACE_LIMIT: usize = 16_777_216;

/// Writes `yes` where the trace of word 4 meets the program of word 1, with the plans chosen for the target of
/// word 2, on the script of word 3, in the number of ticks of word 5 (docs/commands.md). Where the status of a
/// refusal tells a task, `task` becomes its name.
pub(crate) fn judge<H: Shelf, K: Sink>(
    alloc: Global,
    words: &[String],
    shelf: &mut H,
    out: &mut K,
    task: &mut Option<Name>,
) -> Result<(), Status>
    requires { HasForm Command.Judge (map string_bytes words.now) }
    ensures goes { Does Command.Judge (map string_bytes words.now) (H.seen shelf.old) (H.seen shelf.new)
        (K.seen out.old) (K.seen out.new) (status_of result) task.new }
    ensures untouched { IsTrue (writes (status_of result)) ⊎ (out.new ≡ out.old) }
{
    let ticks = number_up_to(words, 5, CountKind::Ticks, MOST_TICKS)?;
    let chosen = choose_for(alloc, words, shelf, task)?;
    let text = load(alloc, words, 3, SCRIPT_LIMIT, shelf)?;
    let script = script_of(alloc, &text, &chosen.set)?;
    let bytes = load(alloc, words, 4, TRACE_LIMIT, shelf)?;
    let lines = lines_of(alloc, &bytes)?;
    accept(alloc, &chosen, &script, ticks, &lines, task)?;
    out.put(b"yes\n")?;
    Ok(())
}

/// The lines of a trace of at most 16,777,216 bytes.
fn lines_of(alloc: Global, bytes: &[u8]) -> Result<Vec<TraceLine>, Status>
    requires { length bytes.now ≤ 16777216 }
    ensures lines { IfOk result (λ lines. IsTrace lines.items bytes.now) }
    ensures refusal { IfErr result (OrMemory (RefusesTrace bytes.now)) }
{
    match read_trace(alloc, bytes) {
        Ok(lines) => Ok(lines),
        Err(TraceFail::BadTrace { line }) => Err(Status::Trace(TraceFail::BadTrace { line })),
        Err(TraceFail::NoMemory) => Err(Status::NoMemory),
    }
}

/// Refuses lines with a breach, as those of the chosen set on this script in so many ticks, at most 10,000,000.
/// Where the status tells a task, `task` becomes its name.
fn accept(
    alloc: Global,
    chosen: &ChosenSet,
    script: &Script,
    ticks: u64,
    lines: &[TraceLine],
    task: &mut Option<Name>,
) -> Result<(), Status>
    requires best { IsBest (plain_choice chosen.now) }
    requires streams { length script.now ≡ length chosen.now.set.tasks }
    requires ticks { ticks ≤ 10000000 }
    ensures accepted { OnOk result (SaysOf (plain_choice chosen.now) script.now ticks lines.now Yes) }
    ensures refusal { IfErr result (OrMemory (IsBreach (plain_choice chosen.now) script.now ticks lines.now)) }
    ensures named { IfErr result (λ status. Names (plain_set chosen.now.set) status task.new) }
{
    let plans = chosen.choice.plans.as_slice();
    match tcel_judge::judge(alloc, &chosen.set, plans, script, ticks, lines)? {
        Verdict::Yes => Ok(()),
        Verdict::No(breach) => {
            *task = told_name(&chosen.set, breach);
            Err(Status::Breach(breach))
        }
    }
}

/// The name of the task that a breach tells.
fn told_name(set: &Set, breach: Breach) -> Option<Name>
    ensures { IfSome (told_task (breached breach)) (λ number. result ≡ name_at (plain_set set.now) number) }
{
    match breach {
        Breach::Missing { task, .. } => name_at(set, task as usize),
        Breach::Order { .. }
        | Breach::Unknown { .. }
        | Breach::Entry { .. }
        | Breach::Early { .. }
        | Breach::Overdue { .. } => None,
    }
}
