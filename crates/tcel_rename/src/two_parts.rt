ghost use Rattle.std.specs.Prelude.{◌≡◌, ◌<◌, ◌≤◌, ◌+◌, ◌++◌, ◌*◌, IfErr, IfOk, length, min, ◌^◌, ◌-◌, List, Bool};
ghost use Rattle.tcel_core.specs.Cells.{all_words, words_of};
ghost use Rattle.tcel_core.specs.Contents.{act_loops, loops, stmt_loops};
ghost use Rattle.tcel_core.specs.Kept.{IsKeptSet};
ghost use Rattle.tcel_core.specs.Language.{Block};
ghost use Rattle.tcel_core.specs.Numbering.{item_numbers};
ghost use Rattle.tcel_core.specs.Parts.{AreOwnParts, fetches, parts_of, plain_parts, slicing_of};
ghost use Rattle.tcel_core.specs.Plain.{plain_body, plain_item, plain_stmt, plain_task};
ghost use Rattle.tcel_core.specs.Sound.{IsSoundTask};
ghost use Rattle.tcel_core.specs.declared.var.Var.{Var};
ghost use Rattle.tcel_parts.specs.SliceLaw.{MeanTheBody};
ghost use Rattle.tcel_rename.specs.Answer.{Refuses};
ghost use Rattle.tcel_parts.specs.Fitting.{PartsAreInScope};
ghost use Rattle.tcel_rename.specs.Halves.{IsPlan, stmts_of};
ghost use Rattle.tcel_rename.specs.Sets.{by_list};
ghost use Rattle.tcel_slice.specs.Keeping.{marked};

use crate::halves::{Halves, halve_body, push_copy_where};
use crate::numbers::{Numbers, next_number, numbers_of};
use crate::sets::{Sets, sets_of};
use sqlite_items::Items;
use std::alloc::Global;
use tcel_core::{Body, CoreStmt, CoreTask, Item, ItemSet, Parts, Var, VarKind};
use tcel_num::NoMemory;

/// Why a task isn't cut in two: its parts would have more than 65,536 words, or memory is wanting.
#[derive(Debug, Drop)]
pub enum PartsFail {
    TooManyCells { words: u64 },
    NoMemory,
}

/// The most words that the parts of a task may have.
const WORDS: u64 = 65536;

/// The two parts of a task by its kept set: the first has all its events, the rest follows it, and both together do what
/// its body does; the task's variables with the copies and temporaries of both; and the words of all of them with one
/// counter per loop, at most 65,536 (docs/slicing.md).
pub fn parts(alloc: Global, task: &CoreTask, kept: &ItemSet) -> Result<Parts, PartsFail>
    requires sound { IsSoundTask (plain_task task.now) }
    requires kept { IsKeptSet (plain_body task.now.body) (marked kept.now.list) }
    requires items { length kept.now.list ≡ length (item_numbers (plain_body task.now.body)) }
    ensures own { IfOk result (λ p. AreOwnParts (plain_task task.now) (plain_parts p)) }
    ensures parts { IfOk result (λ p. plain_parts p ≡ parts_of (slicing_of (plain_task task.now) (marked kept.now.list))) }
    ensures words { IfOk result (λ p. p.words ≤ 65536) }
    ensures scope { IfOk result (λ p. PartsAreInScope (plain_task task.now) (plain_parts p)) }
    ensures law { IfOk result (λ p. MeanTheBody (plain_task task.now) (plain_parts p)) }
    ensures refused { IfErr result (Refuses (parts_of (slicing_of (plain_task task.now) (marked kept.now.list))).words) }
{
    let Ok(sets) = sets_of(alloc, task, kept) else {
        return Err(PartsFail::NoMemory);
    };
    let Ok(numbers) = numbers_of(alloc, task, kept, &sets) else {
        return Err(PartsFail::NoMemory);
    };
    let Ok(words) = words_of_parts(task, &numbers) else {
        return Err(PartsFail::NoMemory);
    };
    if words > WORDS {
        return Err(PartsFail::TooManyCells { words });
    }
    match assembled(alloc, task, kept, &sets, numbers, words) {
        Ok(parts) => Ok(parts),
        Err(_) => Err(PartsFail::NoMemory),
    }
}

/// The parts by the sets and numbers of a task.
fn assembled(
    alloc: Global,
    task: &CoreTask,
    kept: &ItemSet,
    sets: &Sets,
    numbers: Numbers,
    words: u64,
) -> Result<Parts, NoMemory>
    requires plan { IsPlan (by_list task.now.vars (plain_body task.now.body) kept.now.list) sets.now numbers }
    requires few { length task.now.vars ≤ 256 }
    requires words { words ≡ (parts_of (by_list task.now.vars (plain_body task.now.body) kept.now.list)).words }
    ensures { IfOk result (λ p. plain_parts p ≡ parts_of (by_list task.now.vars (plain_body task.now.body) kept.now.list)) }
{
    let halves = halve_body(alloc, kept, sets, &numbers, &task.body)?;
    let fetched = fetched(alloc, sets, &numbers)?;
    let parts = put_together(fetched, halves, numbers, words)?;
    Ok(parts)
}

/// The parts, of which the first begins with what is fetched.
fn put_together(
    fetched: Items<CoreStmt>,
    halves: Halves,
    numbers: Numbers,
    words: u64,
) -> Result<Parts, NoMemory>
    ensures { IfOk result (λ p. plain_parts p ≡
        record { first = stmts_of (fetched ++ halves.first); rest = stmts_of halves.rest; vars = numbers.vars; words = words }) }
{
    let Halves {
        first: inside,
        rest,
    } = halves;
    let mut first = fetched;
    first.append(inside)?;
    let Numbers {
        inside: _,
        starts: _,
        truths: _,
        vars,
    } = numbers;
    Ok(Parts {
        first: Body { list: first },
        rest: Body { list: rest },
        vars,
        words,
    })
}

/// The copies with which the first part begins: of each variable that it reads before it writes it.
fn fetched(alloc: Global, sets: &Sets, numbers: &Numbers) -> Result<Items<CoreStmt>, NoMemory>
    requires { length numbers.now.inside ≤ 256 }
    ensures { IfOk result (λ stmts. (vars : List Var) (whole : Block) (list : List Bool) → IsPlan (by_list vars whole list) sets.now numbers.now →
        stmts_of stmts ≡ fetches (by_list vars whole list)) }
{
    let inside = numbers.inside.as_slice();
    let mut stmts = Items::new(alloc);
    for v in 0..inside.len() {
        push_copy_where(sets.fetched.has(v as u32), v as u32, inside[v], &mut stmts)?;
    }
    Ok(stmts)
}

/// The words of all variables, and one counter per loop.
fn words_of_parts(task: &CoreTask, numbers: &Numbers) -> Result<u64, NoMemory>
    requires { IsSoundTask (plain_task task.now) }
    ensures { IfOk result (λ words. words ≡ all_words numbers.now.vars + loops (plain_body task.now.body)) }
{
    let _ = next_number(&numbers.vars)?;
    Ok(words_of_vars(numbers.vars.as_slice()) + loops_in_body(&task.body))
}

fn words_of_vars(vars: &[Var]) -> u64
    requires { length vars.now < 2 ^ 32 }
    ensures exact { result ≡ all_words vars.now }
    ensures most { result ≤ 4294967295 * length vars.now }
{
    let mut words: u64 = 0;
    for var in vars {
        words += words_of_kind(var.kind);
    }
    words
}

fn words_of_kind(kind: VarKind) -> u64
    ensures exact { result ≡ words_of kind }
    ensures most { result ≤ 4294967295 }
{
    match kind {
        VarKind::Int | VarKind::Bool => 1,
        VarKind::Array(length) => u64::from(length),
    }
}

/// How many loops stand in a body, as far as 64 bits count them.
#[cycle(loops)]
fn loops_in_body(body: &Body) -> u64
    ensures { result ≡ min (loops (plain_body body.now)) (2 ^ 64 - 1) }
{
    let mut count: u64 = 0;
    for stmt in body.list.as_slice() {
        count = count.saturating_add(loops_in_stmt(stmt));
    }
    count
}

#[cycle(loops)]
fn loops_in_stmt(stmt: &CoreStmt) -> u64
    ensures { result ≡ min (stmt_loops (plain_stmt stmt.now)) (2 ^ 64 - 1) }
{
    match stmt {
        CoreStmt::Item { id: _, item } => loops_in_item(item),
        CoreStmt::If {
            id: _,
            test: _,
            yes,
            no,
        } => loops_in_body(yes).saturating_add(loops_in_body(no)),
        CoreStmt::Do { body, .. } => loops_in_body(body),
    }
}

#[cycle(loops)]
fn loops_in_item(item: &Item) -> u64
    ensures { result ≡ min (act_loops (plain_item item.now)) (2 ^ 64 - 1) }
{
    match item {
        Item::For(_, _, body) | Item::While(_, _, body) => loops_in_body(body).saturating_add(1),
        Item::Assign(_, _)
        | Item::AssignAt(_, _, _)
        | Item::Receive(_, _)
        | Item::Send(_, _)
        | Item::Copy(_, _) => 0,
    }
}
