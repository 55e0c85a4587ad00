ghost use Rattle.std.specs.Prelude.{◌≡◌, ◌⊎◌, IfOk, IsTrue, map, string_bytes};
ghost use Rattle.tcel_tool.specs.Answer.{Does, status_of, writes};
ghost use Rattle.tcel_tool.specs.Chosen.{plain_choice};
ghost use Rattle.tcel_tool.specs.CompileCommand.{image_bytes};
ghost use Rattle.tcel_tool.specs.Headline.{image_for};
ghost use Rattle.tcel_tool.specs.SetChoice.{IsBest};

use crate::choice::{ChosenSet, choose_for};
use crate::command::Command;
use crate::status::Status;
use std::alloc::Global;
use tcel_gen::generate;
use tcel_image::encode;
use tcel_io::{Shelf, Sink};
use tcel_num::{Name, NoMemory};
use tcel_verify::Ready;

/// Writes the image of the program of word 1 for the target of word 2. Where the status of a refusal tells a task, `task` becomes its name.
pub(crate) fn compile<H: Shelf, K: Sink>(
    alloc: Global,
    words: &[String],
    shelf: &mut H,
    out: &mut K,
    task: &mut Option<Name>,
) -> Result<(), Status>
    ensures goes { Does Command.Compile (map string_bytes words.now) (H.seen shelf.old) (H.seen shelf.new)
        (K.seen out.old) (K.seen out.new) (status_of result) task.new }
    ensures untouched { IsTrue (writes (status_of result)) ⊎ (out.new ≡ out.old) }
{
    let chosen = choose_for(alloc, words, shelf, task)?;
    let image = image_bytes(alloc, &chosen)?;
    out.put(&image)?;
    Ok(())
}

/// The bytes of the image of a choice.
pub(crate) fn image_bytes(alloc: Global, chosen: &ChosenSet) -> Result<Vec<u8>, NoMemory>
    requires { IsBest (plain_choice chosen.now) }
    ensures { IfOk result (λ bytes. bytes.items ≡ image_bytes (plain_choice chosen.now)) }
{
    let ready = image_of(alloc, chosen)?;
    encode(alloc, ready.image())
}

/// The image of a choice.
pub(crate) fn image_of(alloc: Global, chosen: &ChosenSet) -> Result<Ready, NoMemory>
    requires { IsBest (plain_choice chosen.now) }
    ensures { IfOk result (λ ready. ready ≡ image_for (plain_choice chosen.now)) }
{
    generate(
        alloc,
        &chosen.set,
        chosen.choice.parts.as_slice(),
        chosen.choice.sliced,
        &chosen.costs,
    )
}
