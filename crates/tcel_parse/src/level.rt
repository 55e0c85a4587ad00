ghost use Rattle.std.specs.Prelude.{◌≡◌, nat_eq};
ghost use Rattle.tcel_grammar.specs.Expressions.{level_of};
ghost use Rattle.tcel_grammar.specs.Machine.{rank};
ghost use Rattle.tcel_parse.specs.Levels.{level_named};

use tcel_num::Op;

/// The levels of operators between two operands, the loosest first.
#[derive(Clone, Copy, Debug, PartialEq, Eq)]
pub(crate) enum Level {
    Disjunction,
    Conjunction,
    Comparison,
    Sum,
    Term,
}

/// Whether an operator makes an expression of this level.
pub(crate) fn is_of_level(op: Op, level: Level) -> bool
    ensures { result ≡ nat_eq (rank (level_of op)) (rank (level_named level)) }
{
    match op {
        Op::Or => level == Level::Disjunction,
        Op::And => level == Level::Conjunction,
        Op::Equal | Op::Unequal | Op::Less | Op::LessOrEqual | Op::Greater | Op::GreaterOrEqual =>
            level == Level::Comparison,
        Op::Add | Op::Sub => level == Level::Sum,
        Op::Mul | Op::Div | Op::Rem => level == Level::Term,
        Op::Neg | Op::Not => false,
    }
}
