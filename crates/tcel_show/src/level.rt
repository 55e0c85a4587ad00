ghost use Rattle.std.specs.Prelude.{◌≡◌, nat_lt};
ghost use Rattle.tcel_grammar.specs.Expressions.{level_of};
ghost use Rattle.tcel_show.specs.Canonical.{left_place, rank, right_place};
ghost use Rattle.tcel_show.specs.Levels.{plain_level};

use tcel_num::Op;

/// The levels of expressions, the loosest first (docs/language.md).
#[derive(Clone, Copy)]
pub(crate) enum Level {
    Disjunction,
    Conjunction,
    Comparison,
    Sum,
    Term,
    Factor,
    Atom,
}

impl Level {
    /// The level of what an operator makes.
    pub fn of(op: Op) -> Level
        ensures { plain_level result ≡ level_of op }
    {
        match op {
            Op::Or => Level::Disjunction,
            Op::And => Level::Conjunction,
            Op::Equal | Op::Unequal => Level::Comparison,
            Op::Less | Op::LessOrEqual | Op::Greater | Op::GreaterOrEqual => Level::Comparison,
            Op::Add | Op::Sub => Level::Sum,
            Op::Mul | Op::Div | Op::Rem => Level::Term,
            Op::Neg | Op::Not => Level::Factor,
        }
    }

    /// The level that the left operand of an operator of this level takes.
    pub fn left(self) -> Level
        ensures { plain_level result ≡ left_place (plain_level self) }
    {
        match self {
            Level::Comparison => Level::Sum,
            Level::Factor => Level::Atom,
            _ => self,
        }
    }

    /// The level that the right operand takes.
    pub fn right(self) -> Level
        ensures { plain_level result ≡ right_place (plain_level self) }
    {
        match self {
            Level::Disjunction => Level::Conjunction,
            Level::Conjunction => Level::Comparison,
            Level::Comparison => Level::Sum,
            Level::Sum => Level::Term,
            Level::Term => Level::Factor,
            Level::Factor | Level::Atom => Level::Atom,
        }
    }

    /// Whether it binds less tightly than another.
    pub fn is_below(self, other: Level) -> bool
        ensures { result ≡ nat_lt (rank (plain_level self)) (rank (plain_level other)) }
    {
        self.rank() < other.rank()
    }

    fn rank(self) -> u8
        ensures { result ≡ rank (plain_level self) }
    {
        match self {
            Level::Disjunction => 0,
            Level::Conjunction => 1,
            Level::Comparison => 2,
            Level::Sum => 3,
            Level::Term => 4,
            Level::Factor => 5,
            Level::Atom => 6,
        }
    }
}
