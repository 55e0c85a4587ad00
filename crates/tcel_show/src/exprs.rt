ghost use Rattle.std.specs.Prelude.{[], ◌∷◌, OnOk, if◌then◌else◌};
ghost use Rattle.tcel_show.specs.Canonical.{expr_tokens, op_token, truth_token, whole_tokens};
ghost use Rattle.tcel_show.specs.Levels.{plain_level};
ghost use Rattle.tcel_show.specs.Puts.{Puts};
ghost use Rattle.tcel_token.specs.declared.sign.Sign.{Sign};
ghost use Rattle.tcel_token.specs.declared.token.TokenKind.{TokenKind};
ghost use Rattle.tcel_tree.specs.Plain.{plain_expr};

use crate::level::Level;
use crate::writer::Writer;
use tcel_num::{NoMemory, Op};
use tcel_token::{Keyword, Sign};
use tcel_tree::{Expr, ExprKind};

impl Writer {
    /// An outermost expression.
    pub fn whole(&mut self, expr: &Expr) -> Result<(), NoMemory>
        ensures { OnOk result (Puts self.old self.new (whole_tokens (plain_expr expr.now))) }
    {
        self.expr(expr, Level::Disjunction)
    }

    /// An expression where a place takes a level.
    fn expr(&mut self, expr: &Expr, place: Level) -> Result<(), NoMemory>
        ensures { OnOk result (Puts self.old self.new (expr_tokens (plain_expr expr.now) (plain_level place))) }
    {
        match &expr.what {
            ExprKind::Number(number) => self.number(*number),
            ExprKind::Truth(truth) => self.truth(*truth),
            ExprKind::Var(name) => self.name(name),
            ExprKind::Index(name, index) => {
                self.name(name)?;
                self.sign(Sign::LeftSquare)?;
                self.expr(index.get(), Level::Disjunction)?;
                self.sign(Sign::RightSquare)
            }
            ExprKind::Unary(op, operand) => {
                let enclosed = Level::Factor.is_below(place);
                self.bracket(enclosed, Sign::LeftRound)?;
                self.op(*op)?;
                self.expr(operand.get(), Level::Atom)?;
                self.bracket(enclosed, Sign::RightRound)
            }
            ExprKind::Binary(op, left, right) => {
                let level = Level::of(*op);
                let enclosed = level.is_below(place);
                self.bracket(enclosed, Sign::LeftRound)?;
                self.expr(left.get(), level.left())?;
                self.op(*op)?;
                self.expr(right.get(), level.right())?;
                self.bracket(enclosed, Sign::RightRound)
            }
        }
    }

    /// A bracket, where there is one.
    fn bracket(&mut self, enclosed: bool, sign: Sign) -> Result<(), NoMemory>
        ensures { OnOk result (Puts self.old self.new (if enclosed then TokenKind.Sign sign ∷ [] else [])) }
    {
        if enclosed {
            self.sign(sign)?;
        }
        Ok(())
    }

    pub fn truth(&mut self, truth: bool) -> Result<(), NoMemory>
        ensures { OnOk result (Puts self.old self.new (truth_token truth ∷ [])) }
    {
        self.word(if truth { Keyword::True } else { Keyword::False })
    }

    fn op(&mut self, op: Op) -> Result<(), NoMemory>
        ensures { OnOk result (Puts self.old self.new (op_token op ∷ [])) }
    {
        match op {
            Op::Or => self.word(Keyword::Or),
            Op::And => self.word(Keyword::And),
            Op::Not => self.word(Keyword::Not),
            Op::Equal => self.sign(Sign::Equal),
            Op::Unequal => self.sign(Sign::Unequal),
            Op::Less => self.sign(Sign::Less),
            Op::LessOrEqual => self.sign(Sign::LessOrEqual),
            Op::Greater => self.sign(Sign::Greater),
            Op::GreaterOrEqual => self.sign(Sign::GreaterOrEqual),
            Op::Add => self.sign(Sign::Plus),
            Op::Sub | Op::Neg => self.sign(Sign::Minus),
            Op::Mul => self.sign(Sign::Star),
            Op::Div => self.sign(Sign::Slash),
            Op::Rem => self.sign(Sign::Percent),
        }
    }
}
