ghost use Rattle.std.specs.Prelude.{◌≡◌, ◌≤◌, ◌⊎◌, IfErr, IfOk, IsTrue, Ok, map, string_bytes};
ghost use Rattle.tcel_core.specs.Ports.{port_rows};
ghost use Rattle.tcel_io.specs.Shelf.{SeenShelf};
ghost use Rattle.tcel_script.specs.Script.{script_of};
ghost use Rattle.tcel_tool.specs.Answer.{Does, begun, status_of, writes};
ghost use Rattle.tcel_tool.specs.Chosen.{plain_choice};
ghost use Rattle.tcel_tool.specs.Commands.{HasForm};
ghost use Rattle.tcel_tool.specs.CommandLine.{number_at};
ghost use Rattle.tcel_tool.specs.SetChoice.{IsUnitChoice};
ghost use Rattle.tcel_tool.specs.Stage.{Call};
ghost use Rattle.tcel_tool.specs.Stretch.{Passed, Stopped};
ghost use Rattle.tcel_tool.specs.TrialCommand.{stages};

use crate::choice::{ChosenSet, choose};
use crate::command::Command;
use crate::make::MADE_TASKS;
use crate::mean::script_of;
use crate::program::{program_of, set_of};
use crate::run::MOST_TICKS;
use crate::stages::{number_at, number_up_to};
use crate::status::{CountKind, Status};
use crate::summary::summary;
use std::alloc::Global;
use tcel_io::Sink;
use tcel_make::{make, make_script};
use tcel_num::Name;
use tcel_script::Script;
use tcel_target::Costs;

/// A made program's choice, the values of a made script, and the ticks to run, at most 10,000,000.
#[derive(Debug, Drop)]
pub(crate) struct Prepared {
    pub chosen: ChosenSet,
    pub script: Script,
    pub ticks: u64,
}

/// Writes a summary of the run of the program of the number of tasks of word 2 that the seed of word 1 stands for, with each instruction at one cycle, for
/// the number of ticks of word 3. It reads no file. Where the status of a refusal tells a task, `task` becomes its name.
pub(crate) fn trial<K: Sink>(
    alloc: Global,
    words: &[String],
    out: &mut K,
    task: &mut Option<Name>,
) -> Result<(), Status>
    requires { HasForm Command.Trial (map string_bytes words.now) }
    ensures goes { (shelf : SeenShelf) → Does Command.Trial (map string_bytes words.now) shelf shelf
        (K.seen out.old) (K.seen out.new) (status_of result) task.new }
    ensures untouched { IsTrue (writes (status_of result)) ⊎ (out.new ≡ out.old) }
{
    let prepared = prepare(alloc, words, task)?;
    let text = summary(alloc, prepared)?;
    out.put(&text)?;
    Ok(())
}

/// Makes the program and the script, and chooses the tasks that are sliced.
fn prepare(alloc: Global, words: &[String], task: &mut Option<Name>) -> Result<Prepared, Status>
    requires { HasForm Command.Trial (map string_bytes words.now) }
    ensures passed { IfOk result (λ made. let texts = map string_bytes words.now in (last : Call) × (last.words ≡ texts)
        × ((shelf : SeenShelf) → Passed stages (begun texts) shelf last shelf)
        × IsUnitChoice (last.read 1) (plain_choice made.chosen)
        × (script_of (port_rows (plain_choice made.chosen).set) (last.read 2) ≡ Ok made.script)) }
    ensures ticks { IfOk result (λ made. made.ticks ≡ number_at (map string_bytes words.now) 3) }
    ensures short { IfOk result (λ made. made.ticks ≤ 10000000) }
    ensures stopped { IfErr result (λ status. (shelf : SeenShelf)
        → Stopped stages (begun (map string_bytes words.now)) shelf shelf status task.new) }
{
    let tasks = number_up_to(words, 2, CountKind::MadeTasks, MADE_TASKS)?;
    let ticks = number_up_to(words, 3, CountKind::Ticks, MOST_TICKS)?;
    let text = make(alloc, number_at(words, 1), tasks as u8)?;
    let program = program_of(alloc, &text)?;
    let set = set_of(alloc, &program)?;
    let costs = Costs::unit();
    let choice = choose(alloc, &set, &costs, task)?;
    let lines = make_script(alloc, tasks as u8)?;
    let script = script_of(alloc, &lines, &set)?;
    Ok(Prepared {
        chosen: ChosenSet { set, costs, choice },
        script,
        ticks,
    })
}
