ghost use Rattle.std.specs.Prelude.{◌≡◌, IfOk};
ghost use Rattle.tcel_core.specs.Plain as core;
ghost use Rattle.tcel_check.specs.Checked.{core_expr};
ghost use Rattle.tcel_check.specs.Keys.{numbered_in};
ghost use Rattle.tcel_tree.specs.Plain.{plain_expr};

use crate::numbers::TaskNumbers;
use sqlite_items::Boxed;
use std::alloc::Global;
use tcel_core::CoreExpr;
use tcel_num::NoMemory;
use tcel_tree::{Expr, ExprKind};

/// An expression with its names numbered.
#[cycle(exprs)]
pub fn core_expr(alloc: Global, names: &TaskNumbers, expr: &Expr) -> Result<CoreExpr, NoMemory>
    ensures { IfOk result (λ e. core.plain_expr e ≡ core_expr (plain_expr expr.now) (numbered_in names.now)) }
{
    match &expr.what {
        ExprKind::Number(number) => Ok(CoreExpr::Number(*number)),
        ExprKind::Truth(truth) => Ok(CoreExpr::Number(i64::from(*truth))),
        ExprKind::Var(name) => Ok(CoreExpr::Var(names.vars.number(name))),
        ExprKind::Index(name, index) => {
            let number = names.vars.number(name);
            Ok(CoreExpr::Index(number, core_boxed(alloc, names, index)?))
        }
        ExprKind::Unary(op, operand) => Ok(CoreExpr::Unary(
            *op,
            core_boxed(alloc, names, operand)?,
        )),
        ExprKind::Binary(op, left, right) => {
            let left = core_boxed(alloc, names, left)?;
            Ok(CoreExpr::Binary(*op, left, core_boxed(alloc, names, right)?))
        }
    }
}

#[cycle(exprs)]
fn core_boxed(
    alloc: Global,
    names: &TaskNumbers,
    expr: &Boxed<Expr>,
) -> Result<Boxed<CoreExpr>, NoMemory>
    ensures { IfOk result (λ e. core.plain_expr e ≡ core_expr (plain_expr expr.now) (numbered_in names.now)) }
{
    Ok(Boxed::new(alloc, core_expr(alloc, names, expr.get())?)?)
}
