ghost use Rattle.std.specs.Prelude.{◌≡◌, ◌+◌, ◌++◌, IfOk, OnOk};
ghost use Rattle.tcel_core.specs.Contents.{act_loops, item_loops, loops, loops_before, stmt_item_loops, stmt_loops};
ghost use Rattle.tcel_core.specs.Numbering.{IsNumbered};
ghost use Rattle.tcel_core.specs.Plain.{plain_body, plain_item, plain_stmt};
ghost use Rattle.tcel_gen.specs.Firsts.{fronts};

use sqlite_items::Items;
use std::alloc::Global;
use std::marker::Model;
use tcel_core::{Body, CoreStmt, Item};
use tcel_num::NoMemory;

/// How many loops stand in front of each item of a source. Contracts see it as the source.
#[derive(Drop)]
pub(crate) struct Firsts<'a> {
    source: &'a Body,
    // by the numbers of the items
    fronts: Items<u32>,
    // of all items
    all: u32,
}

impl<'a> Model for Firsts<'a> {
    ghost use Rattle.tcel_core.specs.declared.body.Body.{Body};

    ghost Value = { Body };

    ghost use Rattle.std.specs.Coded.{codes};
    ghost use Rattle.tcel_core.specs.contracts.body.Body as core_body;

    ghost coded = { Prim.hlevel (codes, core_body.the_row.coded) };

    ghost use Rattle.tcel_gen.specs.Firsts.{source_of, AreFirsts};

    ghost view = { source_of };

    ghost invariant = { AreFirsts };
}

impl<'a> Firsts<'a> {
    pub(crate) fn new(alloc: Global, source: &'a Body) -> Result<Firsts<'a>, NoMemory>
        requires numbered { IsNumbered (plain_body source.now) }
        ensures { IfOk result (λ firsts. firsts ≡ source.now) }
    {
        let mut fronts = Items::new(alloc);
        let all = push_fronts(source, 0, &mut fronts)?;
        Ok(Firsts {
            source,
            fronts,
            all,
        })
    }

    /// How many loops stand in front of the item with this number, or in the source where it has none.
    pub(crate) fn first(&self, id: u32) -> u32
        ensures { result ≡ loops_before id (item_loops (plain_body self.now)) }
    {
        match self.fronts.get(id as usize) {
            Some(front) => *front,
            None => self.all,
        }
    }

    /// How many loops stand in the source.
    pub(crate) fn loops(&self) -> u32
        ensures { result ≡ loops (plain_body self.now) }
    {
        self.all
    }
}

/// Appends the loops in front of each item of statements, which stand behind so many; answers how many stand behind them.
#[cycle(fronts)]
fn push_fronts(body: &Body, before: u32, list: &mut Items<u32>) -> Result<u32, NoMemory>
    ensures fronts { OnOk result (list.new ≡ list.old ++ fronts before (item_loops (plain_body body.now))) }
    ensures behind { IfOk result (λ n. n ≡ before + loops (plain_body body.now)) }
{
    let mut behind = before;
    for stmt in body.list.as_slice() {
        behind = push_stmt_fronts(stmt, behind, list)?;
    }
    Ok(behind)
}

#[cycle(fronts)]
fn push_stmt_fronts(stmt: &CoreStmt, before: u32, list: &mut Items<u32>) -> Result<u32, NoMemory>
    ensures fronts { OnOk result (list.new ≡ list.old ++ fronts before (stmt_item_loops (plain_stmt stmt.now))) }
    ensures behind { IfOk result (λ n. n ≡ before + stmt_loops (plain_stmt stmt.now)) }
{
    match stmt {
        CoreStmt::Item { id: _, item } => {
            list.push(before)?;
            add_item_loops(item, before)
        }
        CoreStmt::If {
            id: _,
            test: _,
            yes,
            no,
        } => {
            let between = push_fronts(yes, before, list)?;
            let behind = push_fronts(no, between, list)?;
            Ok(behind)
        }
        CoreStmt::Do { body, .. } => push_fronts(body, before, list),
    }
}

/// The loops of an item, added to so many.
#[cycle(loops)]
fn add_item_loops(item: &Item, before: u32) -> Result<u32, NoMemory>
    ensures { IfOk result (λ n. n ≡ before + act_loops (plain_item item.now)) }
{
    match item {
        Item::For(_, _, body) | Item::While(_, _, body) => add_loops(body, one_more(before)?),
        Item::Assign(_, _)
        | Item::AssignAt(_, _, _)
        | Item::Receive(_, _)
        | Item::Send(_, _)
        | Item::Copy(_, _) => Ok(before),
    }
}

#[cycle(loops)]
fn add_loops(body: &Body, before: u32) -> Result<u32, NoMemory>
    ensures { IfOk result (λ n. n ≡ before + loops (plain_body body.now)) }
{
    let mut behind = before;
    for stmt in body.list.as_slice() {
        behind = add_stmt_loops(stmt, behind)?;
    }
    Ok(behind)
}

#[cycle(loops)]
fn add_stmt_loops(stmt: &CoreStmt, before: u32) -> Result<u32, NoMemory>
    ensures { IfOk result (λ n. n ≡ before + stmt_loops (plain_stmt stmt.now)) }
{
    match stmt {
        CoreStmt::Item { id: _, item } => add_item_loops(item, before),
        CoreStmt::If {
            id: _,
            test: _,
            yes,
            no,
        } => {
            let between = add_loops(yes, before)?;
            add_loops(no, between)
        }
        CoreStmt::Do { body, .. } => add_loops(body, before),
    }
}

/// One more, where a cell has such a number.
pub(crate) fn one_more(number: u32) -> Result<u32, NoMemory>
    ensures { IfOk result (λ n. n ≡ number + 1) }
{
    match number.checked_add(1) {
        Some(more) => Ok(more),
        None => Err(NoMemory),
    }
}
