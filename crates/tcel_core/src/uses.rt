ghost use Rattle.std.specs.Prelude.{◌≡◌, ◌||◌, ◌++◌, [], ◌∷◌, if◌then◌else◌, IfOk, filter};
ghost use Rattle.tcel_core.specs.Numbering.{numbers_from};
ghost use Rattle.tcel_core.specs.Contents.{act_has_event, has_event, stmt_has_event};
ghost use Rattle.tcel_core.specs.Plain.{plain_body, plain_expr, plain_item, plain_stmt};
ghost use Rattle.tcel_core.specs.Rows.{Adds, stands_in};
ghost use Rattle.tcel_core.specs.Uses.{AreVariables, act_reads, act_writes, block_reads, block_writes, expr_reads, stmt_reads, stmt_writes};

use crate::body::{Body, CoreStmt, Item};
use crate::expr::CoreExpr;
use crate::row::Row;
use std::alloc::Global;
use tcel_num::NoMemory;

/// The variables that an item reads, by rising numbers below 256: for a loop whatever is read or written in it (docs/slicing.md).
pub fn reads(alloc: Global, item: &Item) -> Result<Vec<u32>, NoMemory>
    ensures { IfOk result (λ list. AreVariables (act_reads (plain_item item.now)) list.items) }
{
    let mut row = Row::empty();
    add_reads(item, &mut row);
    variables_in(alloc, &row, 256)
}

/// The variables that an item writes, by rising numbers below 256: for a loop whatever is written in it (docs/slicing.md).
pub fn writes(alloc: Global, item: &Item) -> Result<Vec<u32>, NoMemory>
    ensures { IfOk result (λ list. AreVariables (act_writes (plain_item item.now)) list.items) }
{
    let mut row = Row::empty();
    add_writes(item, &mut row);
    variables_in(alloc, &row, 256)
}

/// Adds the variables that stand in an expression.
pub fn add_expr_reads(expr: &CoreExpr, row: &mut Row)
    ensures { Adds row.old row.new (expr_reads (plain_expr expr.now)) }
{
    match expr {
        CoreExpr::Number(_) => {}
        CoreExpr::Var(var) => row.insert(*var),
        CoreExpr::Index(var, index) => {
            row.insert(*var);
            add_expr_reads(index.get(), row);
        }
        CoreExpr::Unary(_, operand) => add_expr_reads(operand.get(), row),
        CoreExpr::Binary(_, left, right) => {
            add_expr_reads(left.get(), row);
            add_expr_reads(right.get(), row);
        }
    }
}

/// Adds the variables that an item reads: for a loop whatever is read or written in it (docs/slicing.md).
pub fn add_reads(item: &Item, row: &mut Row)
    ensures { Adds row.old row.new (act_reads (plain_item item.now)) }
{
    match item {
        Item::Assign(_, value) => add_expr_reads(value, row),
        Item::AssignAt(array, index, value) => {
            row.insert(*array);
            add_expr_reads(index, row);
            add_expr_reads(value, row);
        }
        Item::Receive(_, _) => {}
        Item::Send(value, _) => add_expr_reads(value, row),
        Item::For(var, _, body) => {
            row.insert(*var);
            add_body_names(body, row);
        }
        Item::While(test, _, body) => {
            add_expr_reads(test, row);
            add_body_names(body, row);
        }
        Item::Copy(from, _) => row.insert(*from),
    }
}

/// Adds the variables that an item writes: for a loop whatever is written in it (docs/slicing.md).
#[cycle(writes)]
pub fn add_writes(item: &Item, row: &mut Row)
    ensures { Adds row.old row.new (act_writes (plain_item item.now)) }
{
    match item {
        Item::Assign(var, _) => row.insert(*var),
        Item::AssignAt(array, _, _) => row.insert(*array),
        Item::Receive(var, _) => row.insert(*var),
        Item::Send(_, _) => {}
        Item::For(var, _, body) => {
            row.insert(*var);
            add_body_writes(body, row);
        }
        Item::While(_, _, body) => add_body_writes(body, row),
        Item::Copy(_, to) => row.insert(*to),
    }
}

#[cycle(writes)]
fn add_body_writes(body: &Body, row: &mut Row)
    ensures { Adds row.old row.new (block_writes (plain_body body.now)) }
{
    for stmt in body.list.as_slice() {
        add_stmt_writes(stmt, row);
    }
}

#[cycle(writes)]
fn add_stmt_writes(stmt: &CoreStmt, row: &mut Row)
    ensures { Adds row.old row.new (stmt_writes (plain_stmt stmt.now)) }
{
    match stmt {
        CoreStmt::Item { id: _, item } => add_writes(item, row),
        CoreStmt::If {
            id: _,
            test: _,
            yes,
            no,
        } => {
            add_body_writes(yes, row);
            add_body_writes(no, row);
        }
        CoreStmt::Do { body, .. } => add_body_writes(body, row),
    }
}

/// Adds the variables that are written or read in a body.
#[cycle(names)]
fn add_body_names(body: &Body, row: &mut Row)
    ensures { Adds row.old row.new (λ v. block_writes (plain_body body.now) v || block_reads (plain_body body.now) v) }
{
    for stmt in body.list.as_slice() {
        add_stmt_names(stmt, row);
    }
}

#[cycle(names)]
fn add_stmt_names(stmt: &CoreStmt, row: &mut Row)
    ensures { Adds row.old row.new (λ v. stmt_writes (plain_stmt stmt.now) v || stmt_reads (plain_stmt stmt.now) v) }
{
    match stmt {
        CoreStmt::Item { id: _, item } => add_item_names(item, row),
        CoreStmt::If {
            id: _,
            test,
            yes,
            no,
        } => {
            add_expr_reads(test, row);
            add_body_names(yes, row);
            add_body_names(no, row);
        }
        CoreStmt::Do { body, .. } => add_body_names(body, row),
    }
}

#[cycle(names)]
fn add_item_names(item: &Item, row: &mut Row)
    ensures { Adds row.old row.new (λ v. act_writes (plain_item item.now) v || act_reads (plain_item item.now) v) }
{
    match item {
        Item::Assign(var, value) => {
            row.insert(*var);
            add_expr_reads(value, row);
        }
        Item::AssignAt(array, index, value) => {
            row.insert(*array);
            add_expr_reads(index, row);
            add_expr_reads(value, row);
        }
        Item::Receive(var, _) => row.insert(*var),
        Item::Send(value, _) => add_expr_reads(value, row),
        Item::For(var, _, body) => {
            row.insert(*var);
            add_body_names(body, row);
        }
        Item::While(test, _, body) => {
            add_expr_reads(test, row);
            add_body_names(body, row);
        }
        Item::Copy(from, to) => {
            row.insert(*from);
            row.insert(*to);
        }
    }
}

/// Whether there is a receive or a send in an item.
#[cycle(events)]
pub fn has_event(item: &Item) -> bool
    ensures { result ≡ act_has_event (plain_item item.now) }
{
    match item {
        Item::Receive(_, _) | Item::Send(_, _) => true,
        Item::For(_, _, body) | Item::While(_, _, body) => body_has_event(body),
        Item::Assign(_, _) | Item::AssignAt(_, _, _) | Item::Copy(_, _) => false,
    }
}

#[cycle(events)]
fn body_has_event(body: &Body) -> bool
    ensures { result ≡ has_event (plain_body body.now) }
{
    for stmt in body.list.as_slice() {
        if stmt_has_event(stmt) {
            return true;
        }
    }
    false
}

#[cycle(events)]
fn stmt_has_event(stmt: &CoreStmt) -> bool
    ensures { result ≡ stmt_has_event (plain_stmt stmt.now) }
{
    match stmt {
        CoreStmt::Item { id: _, item } => has_event(item),
        CoreStmt::If {
            id: _,
            test: _,
            yes,
            no,
        } => body_has_event(yes) || body_has_event(no),
        CoreStmt::Do { body, .. } => body_has_event(body),
    }
}

/// The variables below a number that stand in a row.
fn variables_in(alloc: Global, row: &Row, most: u32) -> Result<Vec<u32>, NoMemory>
    ensures { IfOk result (λ list. list.items ≡ filter (stands_in row.now) (numbers_from 0 most)) }
{
    let mut list = Vec::new(alloc);
    for var in 0..most {
        push_where(row.has(var), var, &mut list)?;
    }
    Ok(list)
}

/// Appends a number where it is wanted.
fn push_where(wanted: bool, var: u32, list: &mut Vec<u32>) -> Result<(), NoMemory>
    ensures { IfOk result (λ _. list.new.items ≡ (if wanted then list.old.items ++ (var ∷ []) else list.old.items)) }
{
    if wanted {
        list.push(var)?;
    }
    Ok(())
}
