ghost use Rattle.std.specs.Prelude.{◌≡◌, ◌+◌, ◌≤◌, ◌<◌, ◌^◌, ◌++◌, ℤ, FitsSigned, List, IfErr, IfOk, OnOk, option_to_list};
ghost use Rattle.std.specs.Int.{w64};
ghost use Rattle.tcel_machine.specs.Run.{after_tick, tick_of};
ghost use Rattle.tcel_machine.specs.Seen.{seen};
ghost use Rattle.tcel_tool.specs.Chosen.{plain_choice};
ghost use Rattle.tcel_tool.specs.Counting.{Adds, Counted, counts_text, entries_ahead, none_counted};
ghost use Rattle.tcel_tool.specs.Headline.{image_for};
ghost use Rattle.tcel_tool.specs.SetChoice.{IsBest};
ghost use Rattle.tcel_tool.specs.Summary.{number_line, summary_text};
ghost use Rattle.tcel_tool.specs.declared.status.Status.TheVariants.{NoMemory as memory};

use crate::choice::ChosenSet;
use crate::compile::image_bytes;
use crate::run::ready_of;
use crate::status::Status;
use crate::trial::Prepared;
use crate::writing::{put, put_number};
use std::alloc::Global;
use tcel_machine::{Machine, What};
use tcel_num::{NoMemory, add};
use tcel_verify::Ready;

/// How many events and ends of frames a run has shown, and the sum of the sent values, which wraps.
#[derive(Clone, Copy, Debug)]
pub(crate) struct Counts {
    pub events: u64,
    pub frames: u64,
    pub sum: i64,
}

/// A summary of the run of the choice's image on the script (docs/formats.md).
pub(crate) fn summary(alloc: Global, prepared: Prepared) -> Result<Vec<u8>, Status>
    requires best { IsBest (plain_choice prepared.chosen) }
    requires short { prepared.ticks ≤ 10000000 }
    ensures text { IfOk result (λ text. text.items ≡ summary_text (plain_choice prepared.chosen) prepared.script prepared.ticks) }
    ensures memory { IfErr result (λ status. status ≡ memory) }
{
    let Prepared {
        chosen,
        script,
        ticks,
    } = prepared;
    let ready = written(alloc, &chosen)?;
    let mut machine = Machine::load(alloc, ready, script)?;
    let counts = count(&mut machine, ticks);
    let text = text_of(
        alloc,
        chosen.set.tasks.len(),
        chosen.choice.sliced,
        ticks,
        counts,
    )?;
    Ok(text)
}

/// The choice's image, written and read again.
fn written(alloc: Global, chosen: &ChosenSet) -> Result<Ready, Status>
    requires { IsBest (plain_choice chosen.now) }
    ensures image { IfOk result (λ ready. ready ≡ image_for (plain_choice chosen.now)) }
    ensures memory { IfErr result (λ status. status ≡ memory) }
{
    let bytes = image_bytes(alloc, chosen)?;
    let ready = ready_of(alloc, &bytes)?;
    Ok(ready)
}

/// Does so many ticks, and counts what they show.
fn count(machine: &mut Machine, ticks: u64) -> Counts
    requires start { machine.old.machine.now ≡ 0 }
    requires short { ticks ≤ 10000000 }
    ensures counted { Counted (entries_ahead machine.old ticks) none_counted result }
    ensures fits { FitsSigned w64 result.sum }
{
    let mut counts = Counts {
        events: 0,
        frames: 0,
        sum: 0,
    };
    let mut left = ticks;
    while left > 0 {
        counts = count_tick(machine, counts);
        left -= 1;
    }
    counts
}

/// Does a tick, and counts what it shows.
fn count_tick(machine: &mut Machine, counts: Counts) -> Counts
    requires short { machine.old.machine.now < 10 ^ 12 }
    requires events { counts.events < 10000000 }
    requires frames { counts.frames < 10000000 }
    ensures run { machine.new ≡ after_tick machine.old }
    ensures counted { Counted (option_to_list (tick_of machine.old).entry) counts result }
    ensures fits { FitsSigned w64 counts.sum → FitsSigned w64 result.sum }
    ensures events { result.events ≤ counts.events + 1 }
    ensures frames { result.frames ≤ counts.frames + 1 }
{
    match machine.tick() {
        None => counts,
        Some(entry) => with_shown(counts, entry.what),
    }
}

/// One entry more.
fn with_shown(counts: Counts, shown: What) -> Counts
    requires events { counts.events < 10000000 }
    requires frames { counts.frames < 10000000 }
    ensures counted { (state : List ℤ) → Adds (seen state shown) counts result }
    ensures fits { FitsSigned w64 counts.sum → FitsSigned w64 result.sum }
    ensures events { result.events ≤ counts.events + 1 }
    ensures frames { result.frames ≤ counts.frames + 1 }
{
    match shown {
        What::Receive { .. } => Counts {
            events: counts.events + 1,
            ..counts
        },
        What::Send { port: _, value } => Counts {
            events: counts.events + 1,
            sum: add(counts.sum, value),
            ..counts
        },
        What::First => counts,
        What::End => Counts {
            frames: counts.frames + 1,
            ..counts
        },
    }
}

/// The lines of a summary.
fn text_of(
    alloc: Global,
    tasks: usize,
    sliced: usize,
    ticks: u64,
    counts: Counts,
) -> Result<Vec<u8>, NoMemory>
    ensures { IfOk result (λ text. text.items ≡ counts_text tasks sliced ticks counts) }
{
    let mut text = Vec::new(alloc);
    put_line(&mut text, b"tasks ", tasks as u64)?;
    put_line(&mut text, b"sliced ", sliced as u64)?;
    put_line(&mut text, b"ticks ", ticks)?;
    put_line(&mut text, b"events ", counts.events)?;
    put_line(&mut text, b"frames ", counts.frames)?;
    put(&mut text, b"sum ")?;
    put_number(&mut text, counts.sum)?;
    put(&mut text, b"\n")?;
    Ok(text)
}

/// A word, a number, and a line feed.
fn put_line(out: &mut Vec<u8>, word: &[u8], number: u64) -> Result<(), NoMemory>
    ensures { OnOk result (out.new.items ≡ out.old.items ++ number_line word.now number) }
{
    put(out, word)?;
    put_number(out, number)?;
    put(out, b"\n")
}
