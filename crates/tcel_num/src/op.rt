ghost use Rattle.std.specs.Prelude.{◌≡◌};
ghost use Rattle.tcel_num.specs.Arithmetic.{is_unary};

/// The fifteen operators of expressions, in the order of their numbers in an image (docs/machine.md).
/// `Neg` and `Not` take one operand, the others two.
#[derive(Clone, Copy, Debug, PartialEq, Eq)]
pub enum Op {
    Add,
    Sub,
    Mul,
    Div,
    Rem,
    Neg,
    Not,
    And,
    Or,
    Equal,
    Unequal,
    Less,
    LessOrEqual,
    Greater,
    GreaterOrEqual,
}

impl Op {
    /// Whether it takes one operand.
    pub fn is_unary(self) -> bool
        ensures { result ≡ is_unary self }
    {
        matches!(self, Op::Neg | Op::Not)
    }
}
