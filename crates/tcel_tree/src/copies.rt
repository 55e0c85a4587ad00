ghost use Rattle.std.specs.Prelude.{◌≡◌, IfOk};

use crate::expr::{Expr, ExprKind};
use crate::stmt::{Stmt, StmtKind};
use crate::task::{Program, Task};
use sqlite_items::{Boxed, Items};
use std::alloc::Global;
use tcel_num::NoMemory;

/// A copy of a program, equal to it.
pub fn copy(alloc: Global, program: &Program) -> Result<Program, NoMemory>
    ensures { IfOk result (λ copied. copied ≡ program.now) }
{
    let mut tasks = Items::new(alloc);
    for task in program.tasks.as_slice() {
        tasks.push(copy_task(alloc, task)?)?;
    }
    Ok(Program { tasks })
}

fn copy_task(alloc: Global, task: &Task) -> Result<Task, NoMemory>
    ensures { IfOk result (λ copied. copied ≡ task.now) }
{
    let decls = Items::from_slice(alloc, task.decls.as_slice())?;
    let body = copy_block(alloc, task.body.as_slice())?;
    Ok(Task {
        name: task.name,
        at: task.at,
        priority: task.priority,
        decls,
        period: task.period,
        finish: task.finish,
        body,
    })
}

#[cycle(stmts)]
fn copy_block(alloc: Global, block: &[Stmt]) -> Result<Items<Stmt>, NoMemory>
    ensures { IfOk result (λ copied. copied ≡ block.now) }
{
    let mut copied = Items::new(alloc);
    for stmt in block {
        copied.push(copy_stmt(alloc, stmt)?)?;
    }
    Ok(copied)
}

#[cycle(stmts)]
fn copy_stmt(alloc: Global, stmt: &Stmt) -> Result<Stmt, NoMemory>
    ensures { IfOk result (λ copied. copied ≡ stmt.now) }
{
    Ok(Stmt {
        at: stmt.at,
        what: copy_stmt_kind(alloc, &stmt.what)?,
    })
}

#[cycle(stmts)]
fn copy_stmt_kind(alloc: Global, kind: &StmtKind) -> Result<StmtKind, NoMemory>
    ensures { IfOk result (λ copied. copied ≡ kind.now) }
{
    match kind {
        StmtKind::Assign { name, value } => Ok(StmtKind::Assign {
            name: *name,
            value: copy_expr(alloc, value)?,
        }),
        StmtKind::AssignAt { name, index, value } => Ok(StmtKind::AssignAt {
            name: *name,
            index: copy_expr(alloc, index)?,
            value: copy_expr(alloc, value)?,
        }),
        StmtKind::Receive {
            name,
            name_at,
            port,
            port_at,
        } => Ok(StmtKind::Receive {
            name: *name,
            name_at: *name_at,
            port: *port,
            port_at: *port_at,
        }),
        StmtKind::Send {
            value,
            port,
            port_at,
        } => Ok(StmtKind::Send {
            value: copy_expr(alloc, value)?,
            port: *port,
            port_at: *port_at,
        }),
        StmtKind::If { test, yes, no } => Ok(StmtKind::If {
            test: copy_expr(alloc, test)?,
            yes: copy_block(alloc, yes.as_slice())?,
            no: match no {
                None => None,
                Some(block) => Some(copy_block(alloc, block.as_slice())?),
            },
        }),
        StmtKind::For {
            name,
            name_at,
            turns,
            body,
        } => Ok(StmtKind::For {
            name: *name,
            name_at: *name_at,
            turns: *turns,
            body: copy_block(alloc, body.as_slice())?,
        }),
        StmtKind::While { test, turns, body } => Ok(StmtKind::While {
            test: copy_expr(alloc, test)?,
            turns: *turns,
            body: copy_block(alloc, body.as_slice())?,
        }),
        StmtKind::Do { window, body } => Ok(StmtKind::Do {
            window: *window,
            body: copy_block(alloc, body.as_slice())?,
        }),
    }
}

#[cycle(exprs)]
fn copy_expr(alloc: Global, expr: &Expr) -> Result<Expr, NoMemory>
    ensures { IfOk result (λ copied. copied ≡ expr.now) }
{
    Ok(Expr {
        at: expr.at,
        what: copy_expr_kind(alloc, &expr.what)?,
    })
}

#[cycle(exprs)]
fn copy_expr_kind(alloc: Global, kind: &ExprKind) -> Result<ExprKind, NoMemory>
    ensures { IfOk result (λ copied. copied ≡ kind.now) }
{
    match kind {
        ExprKind::Number(number) => Ok(ExprKind::Number(*number)),
        ExprKind::Truth(truth) => Ok(ExprKind::Truth(*truth)),
        ExprKind::Var(name) => Ok(ExprKind::Var(*name)),
        ExprKind::Index(name, index) => Ok(ExprKind::Index(*name, copy_boxed(alloc, index)?)),
        ExprKind::Unary(op, operand) => Ok(ExprKind::Unary(*op, copy_boxed(alloc, operand)?)),
        ExprKind::Binary(op, left, right) => {
            let left = copy_boxed(alloc, left)?;
            Ok(ExprKind::Binary(*op, left, copy_boxed(alloc, right)?))
        }
    }
}

#[cycle(exprs)]
fn copy_boxed(alloc: Global, expr: &Boxed<Expr>) -> Result<Boxed<Expr>, NoMemory>
    ensures { IfOk result (λ copied. copied ≡ expr.now) }
{
    Ok(Boxed::new(alloc, copy_expr(alloc, expr.get())?)?)
}
