ghost use Rattle.std.specs.Prelude.{◌≡◌, ◌≤◌, All, IfOk, length, map};
ghost use Rattle.tcel_core.specs.Plain.{plain_set, plain_task};
ghost use Rattle.tcel_core.specs.Sound.{IsSoundSet, IsSoundTask};
ghost use Rattle.tcel_link.specs.Conditions.{AreLinks, FitsInputs, IsInRange};
ghost use Rattle.tcel_link.specs.Feeds.{all_written, carried};
ghost use Rattle.tcel_link.specs.Linked.{derived};
ghost use Rattle.tcel_link.specs.Runs.{LeadsAmong, start_link, start_runs};

use crate::feed::Feed;
use crate::link::{Link, Links};
use crate::run::{Run, first_release};
use std::alloc::Global;
use tcel_core::{CoreTask, Set};
use tcel_num::NoMemory;
use tcel_script::Script;

/// The script with which each task does what it does linked: each input to which a link leads has what it receives in all frames that are
/// released before so many ticks, at most 10,000,000, and each other input what it had (docs/language.md).
pub fn resolve(
    alloc: Global,
    set: &Set,
    links: &Links,
    script: Script,
    ticks: u64,
) -> Result<Script, NoMemory>
    requires sound { IsSoundSet (plain_set set.now) }
    requires streams { FitsInputs (plain_set set.now) script }
    requires links { AreLinks (plain_set set.now) links.now }
    requires ticks { ticks ≤ 10000000 }
    ensures { IfOk result (λ resolved. resolved ≡ derived (plain_set set.now) links.now script ticks) }
{
    let tasks = set.tasks.as_slice();
    let mut runs = runs_of(alloc, tasks, &script)?;
    let mut feeds = feeds_of(alloc, tasks, links.list())?;
    let mut events = Vec::new(alloc);
    while let Some(number) = first_release(&runs, ticks) {
        let task = &tasks[number];
        runs[number].release(number as u32, task, &mut feeds, &mut events)?;
    }
    let mut resolved = script;
    write_all(&feeds, &mut resolved)?;
    Ok(resolved)
}

/// The tasks before their first frames.
fn runs_of(alloc: Global, tasks: &[CoreTask], script: &Script) -> Result<Vec<Run>, NoMemory>
    requires sound { All IsSoundTask (map plain_task tasks.now) }
    requires streams { length script.now ≡ length tasks.now }
    ensures { IfOk result (λ runs. runs.items ≡ start_runs 0 (map plain_task tasks.now) script.now) }
{
    let mut runs = Vec::new(alloc);
    for (number, task) in tasks.iter().enumerate() {
        let lists = script.lists(alloc, number)?;
        let run = Run::start(alloc, task, lists)?;
        runs.push(run)?;
    }
    Ok(runs)
}

/// The links before any frame.
fn feeds_of(alloc: Global, tasks: &[CoreTask], links: &[Link]) -> Result<Vec<Feed>, NoMemory>
    requires { All (IsInRange (map plain_task tasks.now)) links.now }
    ensures { IfOk result (λ feeds. map carried feeds.items ≡ map (start_link (map plain_task tasks.now)) links.now) }
{
    let mut feeds = Vec::new(alloc);
    for link in links {
        let task = &tasks[link.to as usize];
        let feed = Feed::new(alloc, *link, &task.body)?;
        feeds.push(feed)?;
    }
    Ok(feeds)
}

/// Puts what the links received into a script.
fn write_all(feeds: &[Feed], script: &mut Script) -> Result<(), NoMemory>
    requires { All (LeadsAmong (map length script.old)) (map carried feeds.now) }
    ensures { IfOk result (λ _. script.new ≡ all_written (map carried feeds.now) script.old) }
{
    for feed in feeds {
        let Link { to, input, .. } = feed.link;
        script.set(to as usize, input as usize, feed.received.as_slice())?;
    }
    Ok(())
}
