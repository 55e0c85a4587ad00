ghost use Rattle.std.specs.Prelude.{OnOk, IfOk};
ghost use Rattle.tcel_core.specs.Plain.{plain_body, plain_expr, plain_item, plain_stmt};
ghost use Rattle.tcel_flow.specs.Shape.{AreSteps, Extends, IsStep, at_item, opens, places, stmt_places};

use crate::step::Step;
use sqlite_items::Items;
use std::alloc::Global;
use tcel_core::{
    Body, CoreExpr, CoreStmt, CoreTask, Item, Row, add_expr_reads, add_reads, add_writes, has_event,
};
use tcel_num::NoMemory;

/// The shape of a task's body.
#[derive(Debug, Drop)]
pub struct Flow {
    pub shape: Items<Step>,
}

/// The shape of the task's body: exactly its steps, in text order (docs/slicing.md).
pub fn flow_of(alloc: Global, task: &CoreTask) -> Result<Flow, NoMemory>
    ensures { IfOk result (λ flow. AreSteps flow.shape (places (plain_body task.now.body))) }
{
    let mut shape = Items::new(alloc);
    push_body(&task.body, &mut shape)?;
    Ok(Flow { shape })
}

#[cycle(steps)]
fn push_body(body: &Body, shape: &mut Items<Step>) -> Result<(), NoMemory>
    ensures { OnOk result (Extends shape.old shape.new (places (plain_body body.now))) }
{
    for stmt in body.list.as_slice() {
        push_stmt(stmt, shape)?;
    }
    Ok(())
}

#[cycle(steps)]
fn push_stmt(stmt: &CoreStmt, shape: &mut Items<Step>) -> Result<(), NoMemory>
    ensures { OnOk result (Extends shape.old shape.new (stmt_places (plain_stmt stmt.now))) }
{
    match stmt {
        CoreStmt::Item { id, item } => {
            shape.push(item_step(*id, item))?;
        }
        CoreStmt::If { id, test, yes, no } => {
            shape.push(open_step(*id, test))?;
            push_body(yes, shape)?;
            shape.push(Step::Middle)?;
            push_body(no, shape)?;
            shape.push(Step::Close)?;
        }
        CoreStmt::Do { body, .. } => push_body(body, shape)?,
    }
    Ok(())
}

/// The step of an item.
fn item_step(id: u32, item: &Item) -> Step
    ensures { IsStep result (at_item id (plain_item item.now)) }
{
    let (mut reads, mut writes) = (Row::empty(), Row::empty());
    add_reads(item, &mut reads);
    add_writes(item, &mut writes);
    Step::Item {
        id,
        reads,
        writes,
        event: has_event(item),
    }
}

/// The step at which an `if` opens.
fn open_step(test: u32, expr: &CoreExpr) -> Step
    ensures { IsStep result (opens test (plain_expr expr.now)) }
{
    let mut reads = Row::empty();
    add_expr_reads(expr, &mut reads);
    Step::Open { test, reads }
}
