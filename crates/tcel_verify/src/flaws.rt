ghost use Rattle.std.specs.Prelude.{◌≡◌, ◌≤◌, length, IfOk, IfErr, OnOk};
ghost use Rattle.tcel_image.specs.Spelling.{InRange};
ghost use Rattle.tcel_image.specs.Validity.{IsValid, IsFirstFlaw};
ghost use Rattle.tcel_verify.specs.First.{IsFirstKind, head_has, FirstInCode, FirstInTask, FirstOfImage};

use crate::instr::line_flaw;
use crate::names::has_same_name;
use crate::ready::Ready;
use tcel_image::{Flaw, FlawKind, Image, ImageTask};

const LONGEST_PERIOD: u32 = 1_000_000_000;

fn head_flaw(earlier: &[ImageTask], task: &ImageTask) -> Option<FlawKind>
    ensures { IsFirstKind (head_has earlier.now task.now) result }
{
    if task.period == 0 || LONGEST_PERIOD < task.period {
        Some(FlawKind::BadPeriod)
    } else if has_same_name(earlier, task) {
        Some(FlawKind::SameName)
    } else {
        None
    }
}

fn code_flaw(task: &ImageTask, number: u32) -> Option<Flaw>
    requires { length task.now.code ≤ 65536 }
    ensures { FirstInCode task.now number result }
{
    for (place, line) in task.code.as_slice().iter().enumerate() {
        if let Some(kind) = line_flaw(task, place, *line) {
            return Some(Flaw {
                kind,
                task: number,
                pc: place as u32,
            });
        }
    }
    None
}

fn task_flaw(earlier: &[ImageTask], task: &ImageTask, number: u32) -> Option<Flaw>
    requires { length task.now.code ≤ 65536 }
    ensures { FirstInTask earlier.now task.now number result }
{
    match head_flaw(earlier, task) {
        Some(kind) => Some(Flaw {
            kind,
            task: number,
            pc: 0,
        }),
        None => code_flaw(task, number),
    }
}

fn first_flaw(image: &Image) -> Option<Flaw>
    requires { InRange image.now }
    ensures { FirstOfImage image.now result }
{
    let tasks = image.tasks.as_slice();
    for (number, task) in tasks.iter().enumerate() {
        if let Some(flaw) = task_flaw(&tasks[..number], task, number as u32) {
            return Some(flaw);
        }
    }
    None
}

/// Checks an image that is in range, in time linear in its code, and takes no memory. Ok holds the
/// image unchanged. Err is the first flaw: by task, a task's head before its code, then by place,
/// then by kind (docs/formats.md); the image is dropped.
pub fn verify(image: Image) -> Result<Ready, Flaw>
    requires { InRange image }
    ensures same { IfOk result (λ ready. ready ≡ image) }
    ensures valid { OnOk result (IsValid image) }
    ensures flaw { IfErr result (λ flaw. IsFirstFlaw image flaw) }
{
    match first_flaw(&image) {
        Some(flaw) => Err(flaw),
        None => Ok(Ready::new(image)),
    }
}
