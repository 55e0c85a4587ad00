ghost use Rattle.std.specs.Prelude.{◌≡◌, ◌≤◌, ◌⊎◌, IfErr, IfOk, IsTrue, Ok, length, map, string_bytes};
ghost use Rattle.tcel_core.specs.Plain.{plain_set};
ghost use Rattle.tcel_core.specs.Sound.{IsSoundSet};
ghost use Rattle.tcel_link.specs.Conditions.{AreLinks, FitsInputs};
ghost use Rattle.tcel_link.specs.Linked.{derived};
ghost use Rattle.tcel_link.specs.Links.{links_in};
ghost use Rattle.tcel_machine.specs.Run.{loaded};
ghost use Rattle.tcel_tool.specs.Answer.{Does, OrMemory, begun, status_of, writes};
ghost use Rattle.tcel_tool.specs.Chosen.{plain_choice};
ghost use Rattle.tcel_tool.specs.Commands.{HasForm};
ghost use Rattle.tcel_tool.specs.Headline.{image_for};
ghost use Rattle.tcel_tool.specs.LinkedCommand.{Reads, RefusesLinkLines, read_stages};
ghost use Rattle.tcel_tool.specs.SetChoice.{IsBest};
ghost use Rattle.tcel_tool.specs.Stage.{Call};
ghost use Rattle.tcel_tool.specs.Stretch.{Passed, Stopped};

use crate::choice::{ChosenSet, TARGET_LIMIT, choose, costs_of};
use crate::command::Command;
use crate::compile::image_of;
use crate::mean::script_of;
use crate::program::{PROGRAM_LIMIT, program_of, set_of};
use crate::run::{MOST_TICKS, put_lines};
use crate::script::SCRIPT_LIMIT;
use crate::stages::{load, number_up_to};
use crate::status::{CountKind, Status};
use std::alloc::Global;
use tcel_core::Set;
use tcel_io::{Shelf, Sink};
use tcel_link::{LinkFail, Links, read_links, resolve};
use tcel_machine::Machine;
use tcel_num::{Name, NoMemory};
use tcel_script::Script;
use tcel_trace::Buffer;

/// The most bytes of links.
const LINKS_LIMIT: usize = 65_536;

/// A choice for a program and a target, the links between its tasks, and the values of their inputs.
#[derive(Debug, Drop)]
pub(crate) struct LinkedSet {
    pub chosen: ChosenSet,
    pub links: Links,
    pub script: Script,
}

/// Writes the trace of the program of word 1 for the target of word 2, with the links of word 3, on the
/// script of word 4, for the number of ticks of word 5 (docs/commands.md, "Linked tasks"). Where the status
/// of a refusal tells a task, `task` becomes its name.
pub(crate) fn linked<H: Shelf, K: Sink>(
    alloc: Global,
    words: &[String],
    shelf: &mut H,
    out: &mut K,
    task: &mut Option<Name>,
) -> Result<(), Status>
    requires { HasForm Command.Linked (map string_bytes words.now) }
    ensures goes { Does Command.Linked (map string_bytes words.now) (H.seen shelf.old) (H.seen shelf.new)
        (K.seen out.old) (K.seen out.new) (status_of result) task.new }
    ensures untouched { IsTrue (writes (status_of result)) ⊎ (out.new ≡ out.old) }
{
    let ticks = number_up_to(words, 5, CountKind::Ticks, MOST_TICKS)?;
    let given = read_all(alloc, words, shelf, task)?;
    let mut machine = started(alloc, given, ticks)?;
    let mut buffer = Buffer::for_image(alloc, machine.ready())?;
    put_lines(&mut machine, &mut buffer, ticks, out)?;
    Ok(())
}

/// Reads the files of words 1 to 4, and chooses the tasks that are sliced.
fn read_all<H: Shelf>(
    alloc: Global,
    words: &[String],
    shelf: &mut H,
    task: &mut Option<Name>,
) -> Result<LinkedSet, Status>
    ensures passed { IfOk result (λ given. let texts = map string_bytes words.now in (last : Call) × (last.words ≡ texts)
        × Passed read_stages (begun texts) (H.seen shelf.old) last (H.seen shelf.new)
        × Reads last (plain_choice given.chosen) given.links given.script) }
    ensures stopped { IfErr result (λ status. Stopped read_stages (begun (map string_bytes words.now))
        (H.seen shelf.old) (H.seen shelf.new) status task.new) }
{
    let text = load(alloc, words, 1, PROGRAM_LIMIT, shelf)?;
    let program = program_of(alloc, &text)?;
    let set = set_of(alloc, &program)?;
    let lines = load(alloc, words, 3, LINKS_LIMIT, shelf)?;
    let links = links_of(alloc, &lines, &set)?;
    let target = load(alloc, words, 2, TARGET_LIMIT, shelf)?;
    let costs = costs_of(alloc, &target)?;
    let choice = choose(alloc, &set, &costs, task)?;
    let values = load(alloc, words, 4, SCRIPT_LIMIT, shelf)?;
    let script = script_of(alloc, &values, &set)?;
    Ok(LinkedSet {
        chosen: ChosenSet { set, costs, choice },
        links,
        script,
    })
}

/// The links of a text between the tasks of the set.
fn links_of(alloc: Global, bytes: &[u8], set: &Set) -> Result<Links, Status>
    requires short { length bytes.now ≤ 65536 }
    requires sound { IsSoundSet (plain_set set.now) }
    ensures read { IfOk result (λ links. links_in (plain_set set.now) bytes.now ≡ Ok links) }
    ensures links { IfOk result (AreLinks (plain_set set.now)) }
    ensures refusal { IfErr result (OrMemory (RefusesLinkLines (plain_set set.now) bytes.now)) }
{
    match read_links(alloc, bytes, set) {
        Ok(links) => Ok(links),
        Err(LinkFail::NoMemory) => Err(Status::NoMemory),
        Err(fail) => Err(Status::Link(fail)),
    }
}

/// The machine with the choice's image, over the script in which each linked input has what it receives in
/// so many ticks, at most 10,000,000.
fn started(alloc: Global, given: LinkedSet, ticks: u64) -> Result<Machine, NoMemory>
    requires best { IsBest (plain_choice given.chosen) }
    requires links { AreLinks (plain_choice given.chosen).set given.links }
    requires streams { FitsInputs (plain_choice given.chosen).set given.script }
    requires ticks { ticks ≤ 10000000 }
    ensures { let c = plain_choice given.chosen in
        IfOk result (λ machine. machine ≡ loaded (image_for c) (derived c.set given.links given.script ticks)) }
{
    let LinkedSet {
        chosen,
        links,
        script,
    } = given;
    let resolved = resolve(alloc, &chosen.set, &links, script, ticks)?;
    let ready = image_of(alloc, &chosen)?;
    Machine::load(alloc, ready, resolved)
}
