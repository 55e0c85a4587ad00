ghost use Rattle.std.specs.Prelude.{◌≡◌};
ghost use Rattle.tcel_core.specs.Typing.{operand_type, result_type};
ghost use Rattle.tcel_check.specs.Types.{named};

use tcel_num::Op;

/// What a value is (docs/language.md).
#[derive(Clone, Copy, Debug, PartialEq, Eq)]
pub enum ValueType {
    Int,
    Bool,
}

/// What an operator takes.
pub fn operand_type(op: Op) -> ValueType
    ensures { result ≡ named (operand_type op) }
{
    match op {
        Op::Not | Op::And | Op::Or => ValueType::Bool,
        _ => ValueType::Int,
    }
}

/// What it gives.
pub fn result_type(op: Op) -> ValueType
    ensures { result ≡ named (result_type op) }
{
    match op {
        Op::Add | Op::Sub | Op::Mul | Op::Div | Op::Rem | Op::Neg => ValueType::Int,
        _ => ValueType::Bool,
    }
}
