ghost use Rattle.std.specs.Prelude.{◌≡◌};
ghost use Rattle.tcel_num.specs.Arithmetic.{holds, truth, unary_value, binary_value};

use tcel_num::{Op, add, div, mul, neg, rem, sub};

/// Whether a truth operand holds.
pub fn holds(value: i64) -> bool
    ensures { result ≡ holds value }
{
    value != 0
}

fn truth(holds: bool) -> i64
    ensures { result ≡ truth holds }
{
    i64::from(holds)
}

/// What an operator of one operand gives, and 0 for any other operator.
pub fn unary(op: Op, a: i64) -> i64
    ensures { result ≡ unary_value op a }
{
    match op {
        Op::Neg => neg(a),
        Op::Not => truth(!holds(a)),
        _ => 0,
    }
}

/// What an operator of two operands gives, and 0 for any other operator.
pub fn binary(op: Op, a: i64, b: i64) -> i64
    ensures { result ≡ binary_value op a b }
{
    match op {
        Op::Add => add(a, b),
        Op::Sub => sub(a, b),
        Op::Mul => mul(a, b),
        Op::Div => div(a, b),
        Op::Rem => rem(a, b),
        Op::And => truth(holds(a) && holds(b)),
        Op::Or => truth(holds(a) || holds(b)),
        Op::Equal => truth(a == b),
        Op::Unequal => truth(a != b),
        Op::Less => truth(a < b),
        Op::LessOrEqual => truth(a <= b),
        Op::Greater => truth(b < a),
        Op::GreaterOrEqual => truth(b <= a),
        Op::Neg | Op::Not => 0,
    }
}
