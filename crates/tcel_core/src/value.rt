ghost use Rattle.std.specs.Prelude.{◌≡◌, length};
ghost use Rattle.tcel_num.specs.Arithmetic.{holds};
ghost use Rattle.tcel_core.specs.Cells.{all_words};
ghost use Rattle.tcel_core.specs.Meaning.{value};
ghost use Rattle.tcel_core.specs.Plain.{plain_expr};
ghost use Rattle.tcel_core.specs.Scope.{IsSound};

use crate::expr::CoreExpr;
use crate::layout::Layout;
use tcel_word::{binary, element, holds, unary};

/// The value of an expression over these words.
pub(crate) fn value(expr: &CoreExpr, layout: &Layout, cells: &[i64]) -> i64
    requires sound { IsSound layout.now (plain_expr expr.now) }
    requires words { length cells.now ≡ all_words layout.now }
    ensures { result ≡ value (plain_expr expr.now) layout.now cells.now }
{
    match expr {
        CoreExpr::Number(number) => *number,
        CoreExpr::Var(var) => cells[layout.place(*var)],
        CoreExpr::Index(array, index) => {
            let index = value(index.get(), layout, cells);
            element(cells, layout.place(*array), layout.width(*array), index)
        }
        CoreExpr::Unary(op, operand) => unary(*op, value(operand.get(), layout, cells)),
        CoreExpr::Binary(op, left, right) => {
            let a = value(left.get(), layout, cells);
            binary(*op, a, value(right.get(), layout, cells))
        }
    }
}

/// Whether a test holds over these words.
pub(crate) fn is_met(test: &CoreExpr, layout: &Layout, cells: &[i64]) -> bool
    requires sound { IsSound layout.now (plain_expr test.now) }
    requires words { length cells.now ≡ all_words layout.now }
    ensures { result ≡ holds (value (plain_expr test.now) layout.now cells.now) }
{
    holds(value(test, layout, cells))
}
