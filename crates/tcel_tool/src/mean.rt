ghost use Rattle.std.specs.Prelude.{◌≡◌, ◌≤◌, ◌⊎◌, IfErr, IfOk, IsTrue, None, OnErr, OnOk, Ok, length, map, string_bytes};
ghost use Rattle.tcel_core.specs.Plain.{plain_set};
ghost use Rattle.tcel_core.specs.Ports.{port_rows};
ghost use Rattle.tcel_core.specs.Sound.{IsSoundSet};
ghost use Rattle.tcel_io.specs.InTurn.{AreCutOff, AreTaken};
ghost use Rattle.tcel_script.specs.Script.{script_of};
ghost use Rattle.tcel_tool.specs.Answer.{Does, OrMemory, status_of, writes};
ghost use Rattle.tcel_tool.specs.Commands.{HasForm};
ghost use Rattle.tcel_tool.specs.MeanText.{pieces_of};
ghost use Rattle.tcel_tool.specs.ScriptText.{RefusesLines};

use crate::command::Command;
use crate::mean_text::mean_text;
use crate::program::{PROGRAM_LIMIT, program_of, set_of};
use crate::script::{SCRIPT_LIMIT, script_for};
use crate::stages::{load, number_up_to};
use crate::status::{CountKind, Status};
use std::alloc::Global;
use tcel_core::Set;
use tcel_io::{Shelf, Sink, SinkFault};
use tcel_script::Script;

const MOST_FRAMES: u64 = 10_000;

/// Writes what the tasks of the program of word 1 do on the script of word 2, for the number of frames of word 3.
pub(crate) fn mean<H: Shelf, K: Sink>(
    alloc: Global,
    words: &[String],
    shelf: &mut H,
    out: &mut K,
) -> Result<(), Status>
    requires { HasForm Command.Mean (map string_bytes words.now) }
    ensures goes { Does Command.Mean (map string_bytes words.now) (H.seen shelf.old) (H.seen shelf.new)
        (K.seen out.old) (K.seen out.new) (status_of result) None }
    ensures untouched { IsTrue (writes (status_of result)) ⊎ (out.new ≡ out.old) }
{
    let frames = number_up_to(words, 3, CountKind::MeanFrames, MOST_FRAMES)?;
    let text = load(alloc, words, 1, PROGRAM_LIMIT, shelf)?;
    let program = program_of(alloc, &text)?;
    let set = set_of(alloc, &program)?;
    let lines = load(alloc, words, 2, SCRIPT_LIMIT, shelf)?;
    let script = script_of(alloc, &lines, &set)?;
    let frames_text = mean_text(alloc, &set, &script, frames)?;
    put_text(&frames_text, frames, out)?;
    Ok(())
}

/// Puts the text of so many frames, and nothing for no frames.
fn put_text<K: Sink>(text: &[u8], frames: u64, out: &mut K) -> Result<(), SinkFault>
    ensures taken { OnOk result (AreTaken (pieces_of frames text.now) (K.seen out.old) (K.seen out.new)) }
    ensures cut_off { OnErr result (AreCutOff (pieces_of frames text.now) (K.seen out.old) (K.seen out.new)) }
{
    if frames == 0 {
        return Ok(());
    }
    out.put(text)
}

/// What the bytes of a script say for the inputs of the set.
pub(crate) fn script_of(alloc: Global, bytes: &[u8], set: &Set) -> Result<Script, Status>
    requires short { length bytes.now ≤ 16777216 }
    requires sound { IsSoundSet (plain_set set.now) }
    ensures streams { IfOk result (λ streams. script_of (port_rows (plain_set set.now)) bytes.now ≡ Ok streams) }
    ensures tasks { IfOk result (λ script. length script ≡ length set.now.tasks) }
    ensures refusal { IfErr result (OrMemory (RefusesLines (port_rows (plain_set set.now)) bytes.now)) }
{
    let ports = set.ports(alloc)?;
    script_for(alloc, bytes, &ports)
}
