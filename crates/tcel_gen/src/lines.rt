ghost use Rattle.std.specs.Prelude.{◌≡◌, ◌++◌, ◌<◌, ◌≤◌, ◌+◌, IfOk, OnOk, length, slice_set};
ghost use Rattle.tcel_core.specs.Plain.{plain_expr};
ghost use Rattle.tcel_code.specs.Code.{at, expr_code};
ghost use Rattle.tcel_code.specs.Compilable.{height};

use crate::places::Places;
use sqlite_items::Items;
use tcel_core::CoreExpr;
use tcel_image::{Instr, Line};
use tcel_num::NoMemory;

/// Appends an instruction, before which the stack has this depth.
pub(crate) fn push_line(depth: u16, instr: Instr, code: &mut Items<Line>) -> Result<(), NoMemory>
    ensures { OnOk result (code.new ≡ code.old ++ at depth instr) }
{
    code.push(Line { instr, depth })?;
    Ok(())
}

/// Puts an instruction in a place, before which the stack has this depth.
pub(crate) fn set_line(at: u32, depth: u16, instr: Instr, code: &mut Items<Line>)
    requires { at < length code.old }
    ensures { code.new ≡ slice_set code.old at (record { instr = instr; depth = depth }) }
{
    code.set(at as usize, Line { instr, depth });
}

/// The place of the next instruction.
pub(crate) fn next_place(code: &Items<Line>) -> Result<u32, NoMemory>
    ensures { IfOk result (λ place. place ≡ length code.now) }
{
    let place = code.len();
    if place <= u32::MAX as usize {
        Ok(place as u32)
    } else {
        Err(NoMemory)
    }
}

/// Appends the code of an expression, which begins with this depth of the stack and leaves the value on it.
pub(crate) fn push_expr(
    places: &Places,
    expr: &CoreExpr,
    depth: u16,
    code: &mut Items<Line>,
) -> Result<(), NoMemory>
    requires low { depth + height (plain_expr expr.now) ≤ 1000 }
    ensures { OnOk result (code.new ≡ code.old ++ expr_code (plain_expr expr.now) places.now depth) }
{
    match expr {
        CoreExpr::Number(number) => push_line(depth, Instr::Const(*number), code),
        CoreExpr::Var(var) => push_line(depth, Instr::Get(places.place(*var)), code),
        CoreExpr::Index(array, index) => {
            push_expr(places, index.get(), depth, code)?;
            let element = Instr::GetAt(places.place(*array), places.width(*array));
            push_line(depth + 1, element, code)
        }
        CoreExpr::Unary(op, operand) => {
            push_expr(places, operand.get(), depth, code)?;
            push_line(depth + 1, Instr::Arith(*op), code)
        }
        CoreExpr::Binary(op, left, right) => {
            push_expr(places, left.get(), depth, code)?;
            push_expr(places, right.get(), depth + 1, code)?;
            push_line(depth + 2, Instr::Arith(*op), code)
        }
    }
}
