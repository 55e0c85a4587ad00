ghost use Rattle.std.specs.Prelude.{◌≡◌, IfOk};
ghost use Rattle.tcel_core.specs.Parts.{renamed_act, renamed_block, renamed_expr, renamed_stmt};
ghost use Rattle.tcel_core.specs.Plain.{plain_body, plain_expr, plain_item, plain_stmt};
ghost use Rattle.tcel_rename.specs.Renaming.{number_in};

use sqlite_items::{Boxed, Items};
use std::alloc::Global;
use tcel_core::{Body, CoreExpr, CoreStmt, Item};
use tcel_num::NoMemory;

/// The number that stands for a variable: the list has the numbers of the first variables, and all others keep theirs.
pub(crate) fn number_of(numbers: &[u32], var: u32) -> u32
    ensures { result ≡ number_in numbers.now var }
{
    let at = var as usize;
    if at < numbers.len() { numbers[at] } else { var }
}

/// A copy of an expression, over variables of these numbers.
#[cycle(exprs)]
pub(crate) fn renamed_expr(
    alloc: Global,
    expr: &CoreExpr,
    numbers: &[u32],
) -> Result<CoreExpr, NoMemory>
    ensures { IfOk result (λ e. plain_expr e ≡ renamed_expr (number_in numbers.now) (plain_expr expr.now)) }
{
    match expr {
        CoreExpr::Number(n) => Ok(CoreExpr::Number(*n)),
        CoreExpr::Var(var) => Ok(CoreExpr::Var(number_of(numbers, *var))),
        CoreExpr::Index(var, index) => {
            let index = renamed_box(alloc, index, numbers)?;
            Ok(CoreExpr::Index(number_of(numbers, *var), index))
        }
        CoreExpr::Unary(op, operand) => {
            let operand = renamed_box(alloc, operand, numbers)?;
            Ok(CoreExpr::Unary(*op, operand))
        }
        CoreExpr::Binary(op, left, right) => {
            let left = renamed_box(alloc, left, numbers)?;
            let right = renamed_box(alloc, right, numbers)?;
            Ok(CoreExpr::Binary(*op, left, right))
        }
    }
}

#[cycle(exprs)]
fn renamed_box(
    alloc: Global,
    expr: &Boxed<CoreExpr>,
    numbers: &[u32],
) -> Result<Boxed<CoreExpr>, NoMemory>
    ensures { IfOk result (λ e. plain_expr e ≡ renamed_expr (number_in numbers.now) (plain_expr expr.now)) }
{
    Ok(Boxed::new(alloc, renamed_expr(alloc, expr.get(), numbers)?)?)
}

/// A copy of a body, over variables of these numbers.
#[cycle(stmts)]
pub(crate) fn renamed_body(alloc: Global, body: &Body, numbers: &[u32]) -> Result<Body, NoMemory>
    ensures { IfOk result (λ b. plain_body b ≡ renamed_block (number_in numbers.now) (plain_body body.now)) }
{
    let mut list = Items::new(alloc);
    for stmt in body.list.as_slice() {
        list.push(renamed_stmt(alloc, stmt, numbers)?)?;
    }
    Ok(Body { list })
}

#[cycle(stmts)]
fn renamed_stmt(alloc: Global, stmt: &CoreStmt, numbers: &[u32]) -> Result<CoreStmt, NoMemory>
    ensures { IfOk result (λ s. plain_stmt s ≡ renamed_stmt (number_in numbers.now) (plain_stmt stmt.now)) }
{
    match stmt {
        CoreStmt::Item { id, item } => {
            let item = renamed_item(alloc, item, numbers)?;
            Ok(CoreStmt::Item { id: *id, item })
        }
        CoreStmt::If { id, test, yes, no } => {
            let test = renamed_expr(alloc, test, numbers)?;
            let yes = renamed_body(alloc, yes, numbers)?;
            let no = renamed_body(alloc, no, numbers)?;
            Ok(CoreStmt::If {
                id: *id,
                test,
                yes,
                no,
            })
        }
        CoreStmt::Do {
            id,
            after,
            before,
            within,
            body,
        } => {
            let body = renamed_body(alloc, body, numbers)?;
            Ok(CoreStmt::Do {
                id: *id,
                after: *after,
                before: *before,
                within: *within,
                body,
            })
        }
    }
}

/// A copy of an item, over variables of these numbers.
#[cycle(stmts)]
pub(crate) fn renamed_item(alloc: Global, item: &Item, numbers: &[u32]) -> Result<Item, NoMemory>
    ensures { IfOk result (λ i. plain_item i ≡ renamed_act (number_in numbers.now) (plain_item item.now)) }
{
    match item {
        Item::Assign(var, value) => {
            let value = renamed_expr(alloc, value, numbers)?;
            Ok(Item::Assign(number_of(numbers, *var), value))
        }
        Item::AssignAt(array, index, value) => {
            let index = renamed_expr(alloc, index, numbers)?;
            let value = renamed_expr(alloc, value, numbers)?;
            Ok(Item::AssignAt(number_of(numbers, *array), index, value))
        }
        Item::Receive(var, port) => Ok(Item::Receive(number_of(numbers, *var), *port)),
        Item::Send(value, port) => {
            let value = renamed_expr(alloc, value, numbers)?;
            Ok(Item::Send(value, *port))
        }
        Item::For(var, turns, body) => {
            let body = renamed_body(alloc, body, numbers)?;
            Ok(Item::For(number_of(numbers, *var), *turns, body))
        }
        Item::While(test, turns, body) => {
            let test = renamed_expr(alloc, test, numbers)?;
            let body = renamed_body(alloc, body, numbers)?;
            Ok(Item::While(test, *turns, body))
        }
        Item::Copy(from, to) => Ok(Item::Copy(number_of(numbers, *from), number_of(numbers, *to))),
    }
}
