//! Checked tasks of programs in text, which the tests of several libraries start from.

ghost use Rattle.std.specs.Prelude.{IfOk};
ghost use Rattle.tcel_core.specs.Parts.{AreOwnParts, plain_parts};
ghost use Rattle.tcel_core.specs.Plain.{plain_set, plain_task};
ghost use Rattle.tcel_core.specs.Sound.{IsSoundSet, IsSoundTask};

use std::alloc::Global;
use std::test::Fail;
use tcel_check::check;
use tcel_core::{CoreTask, Parts, Set};
use tcel_flow::flow_of;
use tcel_num::NoMemory;
use tcel_parse::parse;
use tcel_rename::parts;
use tcel_slice::kept;
use tcel_token::tokens;

/// A task's clause of its period, as `every 10 finish within 5`, and its statements.
pub(crate) type Row<'a> = (&'a [u8], &'a [u8]);

/// The pieces one behind the other.
pub(crate) fn joined(alloc: Global, pieces: &[&[u8]]) -> Result<Vec<u8>, NoMemory> {
    let mut text = Vec::new(alloc);
    for piece in pieces {
        text.extend_from_slice(piece)?;
    }
    Ok(text)
}

/// The tasks of a program.
pub(crate) fn set_of(alloc: Global, text: &[u8]) -> Result<Set, Fail>
    ensures { IfOk result (λ set. IsSoundSet (plain_set set)) }
{
    if text.len() > 1_048_576 {
        return Err(Fail::new("a long program"));
    }
    let tokens = tokens(alloc, text)?;
    let program = parse(alloc, &tokens)?;
    let set = check(alloc, &program)?;
    Ok(set)
}

/// The tasks of a program, each a head up to its declarations' end and a row.
pub(crate) fn set_in(alloc: Global, heads: &[&[u8]], rows: &[Row<'_>]) -> Result<Set, Fail>
    ensures { IfOk result (λ set. IsSoundSet (plain_set set)) }
{
    let mut text = Vec::new(alloc);
    for (head, (every, body)) in heads.iter().zip(rows) {
        for piece in [*head, *every, b" { ", *body, b" } }\n"] {
            text.extend_from_slice(piece)?;
        }
    }
    set_of(alloc, &text)
}

/// The only task of a program.
pub(crate) fn task_in(alloc: Global, head: &[u8], row: Row<'_>) -> Result<CoreTask, Fail>
    ensures { IfOk result (λ task. IsSoundTask (plain_task task)) }
{
    let Set { mut tasks } = set_in(alloc, &[head], &[row])?;
    match tasks.pop() {
        Some(task) => Ok(task),
        None => Err(Fail::new("no task")),
    }
}

/// The worked task of docs/slicing.md.
pub(crate) fn worked_task(alloc: Global) -> Result<CoreTask, Fail>
    ensures { IfOk result (λ task. IsSoundTask (plain_task task)) }
{
    let head: &[u8] =
        b"task t priority 1 { input s; output o; state int n; state int y; local int x; ";
    let body: &[u8] =
        b"receive x from s; if x > 0 { y := x; send y to o; } else { y := 5; n := n + y; } \
        y := 7; send y to o;";
    task_in(alloc, head, (b"every 30", body))
}

/// The two parts that slicing gives a task.
pub(crate) fn own_parts(alloc: Global, task: &CoreTask) -> Result<Parts, NoMemory>
    requires sound { IsSoundTask (plain_task task.now) }
    ensures own { IfOk result (λ cut. AreOwnParts (plain_task task.now) (plain_parts cut)) }
{
    let flow = flow_of(alloc, task)?;
    let items = kept(alloc, task, &flow)?;
    let Ok(cut) = parts(alloc, task, &items) else {
        return Err(NoMemory);
    };
    Ok(cut)
}
