ghost use Rattle.std.specs.Prelude.{◌≡◌, ◌≤◌, IfOk, length, take};
ghost use Rattle.tcel_core.specs.Cells.{all_words};
ghost use Rattle.tcel_core.specs.Evaluation.{IsFrame};
ghost use Rattle.tcel_core.specs.Meaning.{exec};
ghost use Rattle.tcel_core.specs.Plain.{plain_body, plain_task};
ghost use Rattle.tcel_core.specs.Scope.{Fits};

use crate::bounds::Bounds;
use crate::cells::Cells;
use crate::evaluate::run_body;
use crate::event::Event;
use crate::inputs::Inputs;
use crate::layout::Layout;
use crate::set::CoreTask;
use crate::sizes::state_words;
use tcel_num::NoMemory;
use tcel_word::clear;

/// A frame of a task, from these words of its variables and what its inputs have left: its events are appended with their
/// windows, the inputs move on, and the words are those with which the next frame starts (docs/language.md). After NoMemory
/// all three stand in the middle of the frame; the events that were there stand in front.
pub fn frame(
    task: &CoreTask,
    cells: &mut Cells,
    inputs: &mut Inputs,
    events: &mut Vec<Event>,
) -> Result<(), NoMemory>
    requires variables { length task.now.vars ≤ 256 }
    requires fits { Fits (plain_body task.now.body) task.now.vars }
    requires words { length cells.old ≡ all_words task.now.vars }
    ensures ok { IfOk result (λ _. IsFrame (plain_task task.now) events.old.items
        (exec (plain_body task.now.body) task.now.vars (record { cells = cells.old; inputs = inputs.old })) cells.new inputs.new events.new.items) }
    ensures words { length cells.new ≡ all_words task.now.vars }
    ensures kept { take (length events.old.items) events.new.items ≡ events.old.items }
{
    let words = cells.words.as_mut_slice();
    let vars = task.vars.as_slice();
    let layout = Layout::new(vars);
    let bounds = Bounds::of_frame(task.finish, events.len());
    run_body(&task.body, &layout, &bounds, words, inputs, events)?;
    clear(words, state_words(vars));
    Ok(())
}
