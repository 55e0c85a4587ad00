ghost use Rattle.tcel_check.specs.Known.{kind_in};
ghost use Rattle.tcel_check.specs.Sights.{expr_sights};
ghost use Rattle.tcel_check.specs.Walks.{Saw};
ghost use Rattle.tcel_tree.specs.Plain.{plain_expr};

use crate::names::Names;
use crate::purpose::Purpose;
use crate::value_type::{ValueType, operand_type, result_type};
use crate::walk::Walk;
use tcel_tree::{Expr, ExprKind};

impl Walk {
    /// An expression where a type is wanted. An operator comes after its left operand.
    pub fn expr(&mut self, names: &Names, expr: &Expr, wanted: Option<ValueType>)
        ensures { Saw (kind_in names.now) self.old self.new (expr_sights (plain_expr expr.now) wanted) }
    {
        match &expr.what {
            ExprKind::Number(number) => {
                self.node(expr.at);
                self.literal(expr.at, number, wanted);
            }
            ExprKind::Truth(_) => {
                self.node(expr.at);
                self.value(expr.at, ValueType::Bool, wanted);
            }
            ExprKind::Var(name) => {
                self.node(expr.at);
                self.name(names, expr.at, name, Purpose::Scalar(wanted));
            }
            ExprKind::Index(name, index) => {
                self.node(expr.at);
                self.name(names, expr.at, name, Purpose::Element);
                self.value(expr.at, ValueType::Int, wanted);
                self.expr(names, index.get(), Some(ValueType::Int));
            }
            ExprKind::Unary(op, operand) => {
                self.node(expr.at);
                self.value(expr.at, result_type(*op), wanted);
                self.expr(names, operand.get(), Some(operand_type(*op)));
            }
            ExprKind::Binary(op, left, right) => {
                let operands = Some(operand_type(*op));
                self.expr(names, left.get(), operands);
                self.node(expr.at);
                self.value(expr.at, result_type(*op), wanted);
                self.expr(names, right.get(), operands);
            }
        }
    }
}
