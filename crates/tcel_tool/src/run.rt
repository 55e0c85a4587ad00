ghost use Rattle.std.specs.Prelude.{◌≡◌, ◌+◌, ◌<◌, ◌≤◌, ◌^◌, ◌⊎◌, IfErr, IfOk, IsTrue, OnErr, OnOk, Ok, length, map, string_bytes, None};
ghost use Rattle.tcel_io.specs.InTurn.{AreCutOff, AreTaken};
ghost use Rattle.tcel_machine.specs.Run.{after_tick};
ghost use Rattle.tcel_script.specs.Script.{script_of};
ghost use Rattle.tcel_tool.specs.Answer.{Does, OrMemory, status_of, writes};
ghost use Rattle.tcel_tool.specs.Commands.{HasForm};
ghost use Rattle.tcel_tool.specs.Lines.{lines, tick_lines};
ghost use Rattle.tcel_tool.specs.RunCommand.{IsImageIn, RefusesImage};
ghost use Rattle.tcel_tool.specs.ScriptText.{RefusesLines};
ghost use Rattle.tcel_trace.specs.Room.{HasRoom};
ghost use Rattle.tcel_verify.specs.Ports.{port_rows};

use crate::command::Command;
use crate::script::{SCRIPT_LIMIT, script_for};
use crate::stages::{load, number_up_to};
use crate::status::{CountKind, Status};
use std::alloc::Global;
use tcel_image::{ImageFail, decode};
use tcel_io::{Shelf, Sink, SinkFault};
use tcel_machine::Machine;
use tcel_script::Script;
use tcel_trace::{Buffer, put_entry};
use tcel_verify::{Ready, verify};

/// The most bytes of an image.
const RUN_LIMIT: usize = 16_777_216;

/// The most ticks of a command.
pub(crate) const MOST_TICKS: u64 = 10_000_000;

/// Writes the trace of the image of word 1 on the script of word 2, for the number of ticks of word 3.
pub(crate) fn run<H: Shelf, K: Sink>(
    alloc: Global,
    words: &[String],
    shelf: &mut H,
    out: &mut K,
) -> Result<(), Status>
    requires { HasForm Command.Run (map string_bytes words.now) }
    ensures goes { Does Command.Run (map string_bytes words.now) (H.seen shelf.old) (H.seen shelf.new)
        (K.seen out.old) (K.seen out.new) (status_of result) None }
    ensures untouched { IsTrue (writes (status_of result)) ⊎ (out.new ≡ out.old) }
{
    let ticks = number_up_to(words, 3, CountKind::Ticks, MOST_TICKS)?;
    let bytes = load(alloc, words, 1, RUN_LIMIT, shelf)?;
    let ready = ready_of(alloc, &bytes)?;
    let text = load(alloc, words, 2, SCRIPT_LIMIT, shelf)?;
    let script = script_of(alloc, &text, &ready)?;
    let mut buffer = Buffer::for_image(alloc, &ready)?;
    let mut machine = Machine::load(alloc, ready, script)?;
    put_lines(&mut machine, &mut buffer, ticks, out)?;
    Ok(())
}

/// The valid image that the bytes spell.
pub(crate) fn ready_of(alloc: Global, bytes: &[u8]) -> Result<Ready, Status>
    ensures image { IfOk result (IsImageIn bytes.now) }
    ensures refusal { IfErr result (OrMemory (RefusesImage bytes.now)) }
{
    let image = match decode(alloc, bytes) {
        Ok(image) => image,
        Err(ImageFail::NoMemory) => return Err(Status::NoMemory),
        Err(fail) => return Err(Status::Image(fail)),
    };
    match verify(image) {
        Ok(ready) => Ok(ready),
        Err(flaw) => Err(Status::Flaw(flaw)),
    }
}

/// What the bytes of a script say for the image.
fn script_of(alloc: Global, bytes: &[u8], ready: &Ready) -> Result<Script, Status>
    requires short { length bytes.now ≤ 16777216 }
    ensures streams { IfOk result (λ streams. script_of (port_rows ready.now) bytes.now ≡ Ok streams) }
    ensures refusal { IfErr result (OrMemory (RefusesLines (port_rows ready.now) bytes.now)) }
{
    let ports = ready.ports(alloc)?;
    script_for(alloc, bytes, &ports)
}

/// Puts the lines of the next so many ticks, up to the first fault.
pub(crate) fn put_lines<K: Sink>(
    machine: &mut Machine,
    buffer: &mut Buffer,
    ticks: u64,
    out: &mut K,
) -> Result<(), SinkFault>
    requires short { machine.old.machine.now + ticks ≤ 10 ^ 12 }
    requires room { HasRoom buffer.old.room machine.old.image }
    ensures taken { OnOk result (AreTaken (lines machine.old ticks) (K.seen out.old) (K.seen out.new)) }
    ensures cut_off { OnErr result (AreCutOff (lines machine.old ticks) (K.seen out.old) (K.seen out.new)) }
{
    let mut left = ticks;
    while left > 0 {
        put_tick(machine, buffer, out)?;
        left -= 1;
    }
    Ok(())
}

/// Does a tick, and puts its line where it shows something.
fn put_tick<K: Sink>(
    machine: &mut Machine,
    buffer: &mut Buffer,
    out: &mut K,
) -> Result<(), SinkFault>
    requires short { machine.old.machine.now < 10 ^ 12 }
    requires room { HasRoom buffer.old.room machine.old.image }
    ensures run { machine.new ≡ after_tick machine.old }
    ensures room { HasRoom buffer.new.room machine.old.image }
    ensures taken { OnOk result (AreTaken (tick_lines machine.old) (K.seen out.old) (K.seen out.new)) }
    ensures cut_off { OnErr result (AreCutOff (tick_lines machine.old) (K.seen out.old) (K.seen out.new)) }
{
    match machine.tick() {
        None => Ok(()),
        Some(entry) => {
            put_entry(buffer, machine, &entry);
            out.put(buffer.bytes())
        }
    }
}
