ghost use Rattle.std.specs.Prelude.{◌≡◌, ◌+◌, IfOk};
ghost use Rattle.tcel_core.specs.Limits.{expr_nodes};
ghost use Rattle.tcel_core.specs.Plain.{plain_body, plain_expr, plain_item, plain_stmt};
ghost use Rattle.tcel_gen.specs.Sizes.{act_size, size, stmt_size};

use tcel_core::{Body, CoreExpr, CoreStmt, Item};
use tcel_num::NoMemory;

/// The lines that the code of statements has at most, added to so many.
#[cycle(sizes)]
pub(crate) fn add_size(body: &Body, before: usize) -> Result<usize, NoMemory>
    ensures { IfOk result (λ n. n ≡ before + size (plain_body body.now)) }
{
    let mut behind = before;
    for stmt in body.list.as_slice() {
        behind = add_stmt_size(stmt, behind)?;
    }
    Ok(behind)
}

#[cycle(sizes)]
fn add_stmt_size(stmt: &CoreStmt, before: usize) -> Result<usize, NoMemory>
    ensures { IfOk result (λ n. n ≡ before + stmt_size (plain_stmt stmt.now)) }
{
    match stmt {
        CoreStmt::Item { id: _, item } => add_item_size(item, before),
        CoreStmt::If {
            id: _,
            test,
            yes,
            no,
        } => {
            let tested = add_expr_size(test, more(before, 2)?)?;
            let between = add_size(yes, tested)?;
            add_size(no, between)
        }
        CoreStmt::Do { body, .. } => add_size(body, more(before, 1)?),
    }
}

#[cycle(sizes)]
fn add_item_size(item: &Item, before: usize) -> Result<usize, NoMemory>
    ensures { IfOk result (λ n. n ≡ before + act_size (plain_item item.now)) }
{
    match item {
        Item::Assign(_, expr) | Item::Send(expr, _) => add_expr_size(expr, more(before, 1)?),
        Item::AssignAt(_, index, expr) => {
            let indexed = add_expr_size(index, more(before, 1)?)?;
            add_expr_size(expr, indexed)
        }
        Item::Receive(_, _) | Item::Copy(_, _) => more(before, 1),
        Item::For(_, _, body) => add_size(body, more(before, 5)?),
        Item::While(test, _, body) => {
            let tested = add_expr_size(test, more(before, 4)?)?;
            add_size(body, tested)
        }
    }
}

/// The instructions of an expression, added to so many.
fn add_expr_size(expr: &CoreExpr, before: usize) -> Result<usize, NoMemory>
    ensures { IfOk result (λ n. n ≡ before + expr_nodes (plain_expr expr.now)) }
{
    let own = more(before, 1)?;
    match expr {
        CoreExpr::Number(_) | CoreExpr::Var(_) => Ok(own),
        CoreExpr::Index(_, operand) | CoreExpr::Unary(_, operand) => {
            add_expr_size(operand.get(), own)
        }
        CoreExpr::Binary(_, left, right) => {
            let between = add_expr_size(left.get(), own)?;
            add_expr_size(right.get(), between)
        }
    }
}

/// So many more, where there is memory for such a number.
pub(crate) fn more(number: usize, count: usize) -> Result<usize, NoMemory>
    ensures { IfOk result (λ n. n ≡ number + count) }
{
    match number.checked_add(count) {
        Some(sum) => Ok(sum),
        None => Err(NoMemory),
    }
}
