ghost use Rattle.std.specs.Prelude.{◌≡◌, ◌≤◌, ◌^◌};
ghost use Rattle.tcel_core.specs.Cells.{width, words_of};
ghost use Rattle.tcel_core.specs.Plain.{plain_expr};
ghost use Rattle.tcel_target.specs.Costs.{cost_of};
ghost use Rattle.tcel_cost.specs.Expressions.{expr_cycles, operator_key};

use tcel_core::{CoreExpr, Var, VarKind};
use tcel_num::Op;
use tcel_target::Costs;

/// The cycles of an expression.
pub(crate) fn expr_cycles(expr: &CoreExpr, costs: &Costs) -> u64
    requires { expr_cycles costs.now (plain_expr expr.now) ≤ 2 ^ 63 }
    ensures { result ≡ expr_cycles costs.now (plain_expr expr.now) }
{
    match expr {
        CoreExpr::Number(_) => costs.const_ as u64,
        CoreExpr::Var(_) => costs.load as u64,
        CoreExpr::Index(_, index) => expr_cycles(index.get(), costs) + costs.load_at as u64,
        CoreExpr::Unary(op, operand) => {
            expr_cycles(operand.get(), costs) + operator_cycles(*op, costs) as u64
        }
        CoreExpr::Binary(op, left, right) => {
            let own = expr_cycles(right.get(), costs) + operator_cycles(*op, costs) as u64;
            expr_cycles(left.get(), costs) + own
        }
    }
}

/// The cycles of an operator's instruction.
fn operator_cycles(op: Op, costs: &Costs) -> u32
    ensures { result ≡ cost_of costs.now (operator_key op) }
{
    match op {
        Op::Mul => costs.multiply,
        Op::Div | Op::Rem => costs.divide,
        _ => costs.arith,
    }
}

/// How many words a variable has; a number of no variable has none.
pub(crate) fn width(vars: &[Var], var: u32) -> u64
    ensures { result ≡ width vars.now var }
{
    match vars.get(var as usize) {
        None => 0,
        Some(var) => words_of(var.kind),
    }
}

/// How many words a variable of this kind has.
fn words_of(kind: VarKind) -> u64
    ensures { result ≡ words_of kind }
{
    match kind {
        VarKind::Int | VarKind::Bool => 1,
        VarKind::Array(length) => length as u64,
    }
}
