ghost use Rattle.std.specs.Prelude.{◌≡◌, ◌≤◌, map, IfOk};
ghost use Rattle.std.specs.List.{flat_map};
ghost use Rattle.tcel_image.specs.declared.image.ImageState.{ImageState};
ghost use Rattle.tcel_image.specs.Machine.{first_cells, start_task};
ghost use Rattle.tcel_image.specs.Spelling.{InRange, TaskInRange, state_words};
ghost use Rattle.tcel_image.specs.Validity.{IsValid};
ghost use Rattle.tcel_machine.specs.Runs.{AllRun, IsTaskValid};
ghost use Rattle.tcel_machine.specs.Task.{running_of};

use crate::stack::Stack;
use crate::task::Task;
use std::alloc::Global;
use tcel_image::{Image, ImageState, ImageTask};
use tcel_num::{Name, NoMemory};

/// The states' first values, with room for so many cells.
fn first_words(alloc: Global, states: &[ImageState], cells: usize) -> Result<Vec<i64>, NoMemory>
    ensures { IfOk result (λ words. words.items ≡ flat_map (λ (state : ImageState). state.first) states.now) }
{
    let mut words = Vec::with_capacity(alloc, cells)?;
    for state in states {
        words.extend_from_slice(state.first.as_slice())?;
    }
    Ok(words)
}

#[tactic(auto, using(crate::proofs::Sound::resized))]
fn first_cells(alloc: Global, image_task: &ImageTask) -> Result<Vec<i64>, NoMemory>
    requires { TaskInRange image_task.now }
    ensures { IfOk result (λ cells. cells.items ≡ first_cells image_task.now) }
{
    let count = image_task.cells as usize;
    let mut cells = first_words(alloc, image_task.states.as_slice(), count)?;
    cells.resize(count, 0)?;
    Ok(cells)
}

#[tactic(auto, using(crate::proofs::Sound::no_values))]
fn none_taken(alloc: Global, inputs: &[Name]) -> Result<Vec<u64>, NoMemory>
    ensures { IfOk result (λ taken. taken.items ≡ map (λ _. 0) inputs.now) }
{
    Ok(vec![in alloc; 0; inputs.len()]?)
}

fn words_of(states: &[ImageState]) -> usize
    requires { state_words states.now ≤ 4096 }
    ensures { result ≡ state_words states.now }
{
    states.iter().map(|state| state.words as usize).sum()
}

fn start(alloc: Global, image_task: &ImageTask) -> Result<Task, NoMemory>
    requires range { TaskInRange image_task.now }
    requires valid { IsTaskValid image_task.now }
    ensures words { IfOk result (λ task. task.words ≡ state_words image_task.now.states) }
    ensures start { IfOk result (λ task. running_of task ≡ start_task image_task.now) }
{
    let cells = first_cells(alloc, image_task)?;
    let taken = none_taken(alloc, image_task.inputs.as_slice())?;
    let words = words_of(image_task.states.as_slice());
    Ok(Task {
        cells,
        stack: Stack::new(),
        place: 0,
        dispatched: 0,
        spent: 0,
        ended: 0,
        taken,
        words,
    })
}

/// All tasks of the image before their first tick.
pub(crate) fn start_all(alloc: Global, image: &Image) -> Result<Vec<Task>, NoMemory>
    requires range { InRange image.now }
    requires valid { IsValid image.now }
    ensures running { IfOk result (λ tasks. AllRun image.now.tasks 0 tasks.items) }
    ensures start { IfOk result (λ tasks. map running_of tasks.items ≡ map start_task image.now.tasks) }
{
    let image_tasks = image.tasks.as_slice();
    let mut tasks = Vec::new(alloc);
    for image_task in image_tasks {
        tasks.push(start(alloc, image_task)?)?;
    }
    Ok(tasks)
}
