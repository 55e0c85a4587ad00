ghost use Rattle.std.specs.Prelude.{◌≡◌, ◌≤◌, IfOk, length, map};
ghost use Rattle.std.specs.List.{AllZip};
ghost use Rattle.tcel_core.specs.Parts.{AreOwnParts, plain_parts};
ghost use Rattle.tcel_core.specs.Plain.{plain_set, plain_task};
ghost use Rattle.tcel_core.specs.Sound.{IsSoundSet};
ghost use Rattle.tcel_target.specs.Costs.{CostsInRange};
ghost use Rattle.tcel_image.specs.Spelling.{spelling};
ghost use Rattle.tcel_cost.specs.Forms.{forms_of};
ghost use Rattle.tcel_code.specs.Layout.{form_task, layout};
ghost use Rattle.tcel_gen.specs.Generated.{KeepsAbreast, MeetsItsSource};

use crate::task::image_task;
use sqlite_items::Items;
use std::alloc::Global;
use tcel_core::{CoreTask, Parts, Set};
use tcel_image::{Image, ImageTask};
use tcel_num::NoMemory;
use tcel_target::Costs;
use tcel_verify::Ready;

/// The image of a checked set, of which so many of the last tasks are sliced into their parts, for a processor with these
/// costs. Nothing is tested: it is in range and valid by proof. Each task's code has at most 36,300 lines, and the image at
/// most 16,777,216 bytes (docs/code.md, docs/formats.md).
pub fn generate(
    alloc: Global,
    set: &Set,
    parts: &[Parts],
    sliced: usize,
    costs: &Costs,
) -> Result<Ready, NoMemory>
    requires sound { IsSoundSet (plain_set set.now) }
    requires own { AllZip AreOwnParts (plain_set set.now) (map plain_parts parts.now) }
    requires most { sliced ≤ length set.now.tasks }
    requires costs { CostsInRange costs.now }
    ensures image { IfOk result (λ ready. ready ≡ layout (forms_of sliced (plain_set set.now) (map plain_parts parts.now)) costs.now) }

    // It can be written, and loaded again.
    ensures small { IfOk result (λ ready. length (spelling ready) ≤ 16777216) }

    // Every run of it does what the source says, in order and in time, where the demand of its plans fits and none is ever late.
    ensures law { MeetsItsSource (forms_of sliced (plain_set set.now) (map plain_parts parts.now)) costs.now }

    // Whether it fits or not, each task runs no less than the demand schedule serves it.
    ensures abreast { KeepsAbreast (forms_of sliced (plain_set set.now) (map plain_parts parts.now)) costs.now }
{
    let tasks = image_tasks(alloc, set.tasks.as_slice(), parts, sliced)?;
    let image = Image {
        costs: *costs,
        tasks,
    };
    Ok(Ready::new(image))
}

fn image_tasks(
    alloc: Global,
    tasks: &[CoreTask],
    parts: &[Parts],
    sliced: usize,
) -> Result<Items<ImageTask>, NoMemory>
    requires sound { IsSoundSet (map plain_task tasks.now) }
    requires own { AllZip AreOwnParts (map plain_task tasks.now) (map plain_parts parts.now) }
    ensures { IfOk result (λ all. all ≡ map form_task (forms_of sliced (map plain_task tasks.now) (map plain_parts parts.now))) }
{
    let mut all = Items::new(alloc);
    for i in 0..tasks.len() {
        let left = tasks.len() - i;
        all.push(image_task(alloc, &tasks[i], &parts[i], left <= sliced)?)?;
    }
    Ok(all)
}
