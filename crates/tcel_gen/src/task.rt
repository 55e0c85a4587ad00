ghost use Rattle.std.specs.Prelude.{◌≡◌, ◌≤◌, ◌+◌, ◌++◌, [], ◌∷◌, All, IfOk, OnOk, pos, replicate, if◌then◌else◌};
ghost use Rattle.tcel_core.specs.Cells.{all_words, words_of};
ghost use Rattle.tcel_core.specs.Contents.{loops};
ghost use Rattle.tcel_core.specs.Frames.{first_words, is_state};
ghost use Rattle.tcel_core.specs.Parts.{AreOwnParts, plain_parts};
ghost use Rattle.tcel_core.specs.Plain.{plain_body, plain_task};
ghost use Rattle.tcel_core.specs.Sound.{IsDeclared, IsSoundTask};
ghost use Rattle.tcel_cost.specs.Forms.{form_of};
ghost use Rattle.tcel_code.specs.Code.{frame_code};
ghost use Rattle.tcel_code.specs.Counters.{counters_of};
ghost use Rattle.tcel_code.specs.Layout.{form_task, kind_of, state_of, states_of};
ghost use Rattle.tcel_gen.specs.Codable.{IsCodable};
ghost use Rattle.tcel_gen.specs.Halved.{halved};

use crate::cells::Cells;
use crate::code::push_body;
use crate::firsts::Firsts;
use crate::lines::push_line;
use crate::places::{Places, words_of};
use crate::sizes::{add_size, more};
use sqlite_items::Items;
use std::alloc::Global;
use tcel_core::{Body, CoreTask, Keep, Parts, Var, VarKind};
use tcel_image::{ImageState, ImageTask, Instr, Line, StateKind};
use tcel_num::{Name, NoMemory};

/// A task of the image, whole or in its parts.
pub(crate) fn image_task(
    alloc: Global,
    task: &CoreTask,
    parts: &Parts,
    sliced: bool,
) -> Result<ImageTask, NoMemory>
    requires sound { IsSoundTask (plain_task task.now) }
    requires own { AreOwnParts (plain_task task.now) (plain_parts parts.now) }
    ensures { IfOk result (λ t. t ≡ form_task (form_of (plain_task task.now) sliced (plain_parts parts.now))) }
{
    if sliced {
        return halved_task(
            alloc,
            task,
            true,
            &parts.first,
            &parts.rest,
            parts.vars.as_slice(),
        );
    }
    let nothing = Body {
        list: Items::new(alloc),
    };
    halved_task(
        alloc,
        task,
        false,
        &task.body,
        &nothing,
        task.vars.as_slice(),
    )
}

/// A task of the image whose frames do these bodies over these variables.
fn halved_task(
    alloc: Global,
    task: &CoreTask,
    sliced: bool,
    first: &Body,
    rest: &Body,
    vars: &[Var],
) -> Result<ImageTask, NoMemory>
    requires sound { IsSoundTask (plain_task task.now) }
    requires few { all_words vars.now + loops (plain_body task.now.body) ≤ 65536 }
    requires first { IsCodable (plain_body first.now) }
    requires rest { IsCodable (plain_body rest.now) }
    ensures { IfOk result (λ t. t ≡ form_task (halved (plain_task task.now) sliced (plain_body first.now) (plain_body rest.now) vars.now)) }
{
    let places = Places::new(alloc, vars)?;
    let firsts = Firsts::new(alloc, &task.body)?;
    let cells = Cells { places, firsts };
    let count = cells.places.words() + cells.firsts.loops();
    let inputs = Items::from_slice(alloc, task.inputs.as_slice())?;
    let outputs = Items::from_slice(alloc, task.outputs.as_slice())?;
    let states = states_of(alloc, task.vars.as_slice())?;
    let code = frame_code(alloc, &cells, first, rest)?;
    Ok(ImageTask {
        name: task.name,
        period: task.period as u32,
        sliced,
        inputs,
        outputs,
        states,
        cells: count,
        code,
    })
}

fn frame_code(
    alloc: Global,
    cells: &Cells,
    first: &Body,
    rest: &Body,
) -> Result<Items<Line>, NoMemory>
    requires first { IsCodable (plain_body first.now) }
    requires rest { IsCodable (plain_body rest.now) }
    ensures { IfOk result (λ code. code ≡ frame_code (plain_body first.now) (plain_body rest.now) cells.now.places (counters_of (plain_body cells.now.firsts) cells.now.places)) }
{
    let lines = more(add_size(rest, add_size(first, 0)?)?, 2)?;
    let mut code = Items::from_vec(Vec::with_capacity(alloc, lines)?);
    push_body(cells, first, false, 0, &mut code)?;
    push_line(0, Instr::Mark, &mut code)?;
    push_body(cells, rest, false, 0, &mut code)?;
    push_line(0, Instr::End, &mut code)?;
    Ok(code)
}

fn states_of(alloc: Global, vars: &[Var]) -> Result<Items<ImageState>, NoMemory>
    requires { All IsDeclared vars.now }
    ensures { IfOk result (λ states. states ≡ states_of vars.now) }
{
    let mut states = Items::new(alloc);
    for var in vars {
        push_state(alloc, var, &mut states)?;
    }
    Ok(states)
}

/// Appends a state, where the variable is one.
fn push_state(alloc: Global, var: &Var, states: &mut Items<ImageState>) -> Result<(), NoMemory>
    requires { IsDeclared var.now }
    ensures { OnOk result (states.new ≡ states.old ++ (if is_state var.now.keep then state_of var.now ∷ [] else [])) }
{
    let named: Option<Name> = var.name;
    match (var.keep, named) {
        (Keep::State, Some(name)) => {
            let first = first_words(alloc, var.kind, var.first)?;
            states.push(ImageState {
                name,
                kind: kind_of(var.kind),
                words: words_of(var.kind),
                first,
            })?;
            Ok(())
        }
        _ => Ok(()),
    }
}

fn kind_of(kind: VarKind) -> StateKind
    ensures { result ≡ kind_of kind }
{
    match kind {
        VarKind::Int => StateKind::Int,
        VarKind::Bool => StateKind::Bool,
        VarKind::Array(_) => StateKind::Array,
    }
}

/// The words of a variable before the first frame.
fn first_words(alloc: Global, kind: VarKind, first: i64) -> Result<Items<i64>, NoMemory>
    ensures { IfOk result (λ words. words ≡ first_words kind first) }
{
    match kind {
        VarKind::Int | VarKind::Bool => Ok(Items::from_slice(alloc, &[first])?),
        VarKind::Array(length) => zeros(alloc, length),
    }
}

fn zeros(alloc: Global, count: u32) -> Result<Items<i64>, NoMemory>
    ensures { IfOk result (λ words. words ≡ replicate count (pos 0)) }
{
    let mut words = Items::new(alloc);
    for _ in 0..count {
        words.push(0)?;
    }
    Ok(words)
}
