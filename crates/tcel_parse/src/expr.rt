ghost use Rattle.std.specs.Prelude.{◌≡◌, [], ◌∷◌, Bool, true, false, Some, None, IfOk, IfErr, OnOk};
ghost use Rattle.tcel_grammar.specs.Expressions.{IsExpr, conjunction, comparison, sum, term, factor, atom};
ghost use Rattle.tcel_grammar.specs.Statements.{IsWhole};
ghost use Rattle.tcel_grammar.specs.Machine.{operand, behind_operand, expr, is_name, is_numeral, is_sign};
ghost use Rattle.tcel_tree.specs.Plain.{plain_expr};
ghost use Rattle.tcel_tree.specs.Language.{number, truth, variable, element, unary, binary};
ghost use Rattle.tcel_token.specs.declared.sign.Sign.{Sign};
ghost use Rattle.tcel_parse.specs.declared.fail.Stop.{Stop};
ghost use Rattle.tcel_parse.specs.Reading.{left, sees, Gives, GoesOn, operator_at, unary_at};
ghost use Rattle.tcel_parse.specs.Levels.{level_named};

use crate::fail::Stop;
use crate::kinds::{binary_operator, unary_operator};
use crate::level::{Level, is_of_level};
use crate::parser::{Named, Parser};
use sqlite_items::Boxed;
use std::alloc::Global;
use tcel_num::{At, Op};
use tcel_token::{Keyword, Sign};
use tcel_tree::{Expr, ExprKind, Placed};

impl Parser<'_> {
    /// The operator between operands that stands here, if it is of this level.
    fn operator(&self, level: Level) -> Option<Op>
        ensures { result ≡ operator_at (level_named level) (left self.now) }
    {
        match self.rest {
            [first, ..] => match binary_operator(&first.kind) {
                Some(op) if is_of_level(op, level) => Some(op),
                _ => None,
            },
            [] => None,
        }
    }

    /// The operator in front of an operand that stands here.
    fn unary_operator(&self) -> Option<Op>
        ensures { result ≡ unary_at (left self.now) }
    {
        match self.rest {
            [first, ..] => unary_operator(&first.kind),
            [] => None,
        }
    }

    /// An expression.
    #[cycle(expr)]
    pub(crate) fn expr(&mut self) -> Result<Expr, Stop>
        ensures tree { IfOk result (λ e. IsWhole (left self.old) (plain_expr e) (left self.new)) }
        ensures run { Gives result self.old self.new (expr ∷ []) [] }
        ensures onward { OnOk result (GoesOn self.old self.new) }
    {
        let mut left = self.conjunction()?;
        while let Some(op) = self.operator(Level::Disjunction) {
            let at = self.take()?;
            let right = self.conjunction()?;
            left = binary_node(self.alloc, at, op, left, right)?;
        }
        Ok(left)
    }

    /// Comparisons joined by `and`.
    #[cycle(expr)]
    fn conjunction(&mut self) -> Result<Expr, Stop>
        ensures tree { IfOk result (λ e. IsExpr conjunction (left self.old) (plain_expr e) (left self.new)) }
        ensures run { Gives result self.old self.new (expr ∷ []) (behind_operand 1 false ∷ []) }
        ensures onward { OnOk result (GoesOn self.old self.new) }
    {
        let mut left = self.comparison()?;
        while let Some(op) = self.operator(Level::Conjunction) {
            let at = self.take()?;
            let right = self.comparison()?;
            left = binary_node(self.alloc, at, op, left, right)?;
        }
        Ok(left)
    }

    /// A sum, or two that are compared.
    #[cycle(expr)]
    fn comparison(&mut self) -> Result<Expr, Stop>
        ensures tree { IfOk result (λ e. IsExpr comparison (left self.old) (plain_expr e) (left self.new)) }
        ensures run { Gives result self.old self.new (expr ∷ []) (behind_operand 2 false ∷ []) }
        ensures onward { OnOk result (GoesOn self.old self.new) }
    {
        let left = self.sum()?;
        let Some(op) = self.operator(Level::Comparison) else {
            return Ok(left);
        };
        let at = self.take()?;
        let right = self.sum()?;
        binary_node(self.alloc, at, op, left, right)
    }

    /// Terms joined by `+` and `-`.
    #[cycle(expr)]
    fn sum(&mut self) -> Result<Expr, Stop>
        ensures tree { IfOk result (λ e. IsExpr sum (left self.old) (plain_expr e) (left self.new)) }
        ensures run { (c : Bool) → Gives result self.old self.new (operand true c ∷ []) (behind_operand 3 c ∷ []) }
        ensures onward { OnOk result (GoesOn self.old self.new) }
    {
        let mut left = self.term()?;
        while let Some(op) = self.operator(Level::Sum) {
            let at = self.take()?;
            let right = self.term()?;
            left = binary_node(self.alloc, at, op, left, right)?;
        }
        Ok(left)
    }

    /// Factors joined by `*`, `/` and `%`.
    #[cycle(expr)]
    fn term(&mut self) -> Result<Expr, Stop>
        ensures tree { IfOk result (λ e. IsExpr term (left self.old) (plain_expr e) (left self.new)) }
        ensures run { (c : Bool) → Gives result self.old self.new (operand true c ∷ []) (behind_operand 4 c ∷ []) }
        ensures onward { OnOk result (GoesOn self.old self.new) }
    {
        let mut left = self.factor()?;
        while let Some(op) = self.operator(Level::Term) {
            let at = self.take()?;
            let right = self.factor()?;
            left = binary_node(self.alloc, at, op, left, right)?;
        }
        Ok(left)
    }

    /// An atom, with an operator in front of it or without.
    #[cycle(expr)]
    fn factor(&mut self) -> Result<Expr, Stop>
        ensures tree { IfOk result (λ e. IsExpr factor (left self.old) (plain_expr e) (left self.new)) }
        ensures run { (c : Bool) → Gives result self.old self.new (operand true c ∷ []) (behind_operand 5 c ∷ []) }
        ensures onward { OnOk result (GoesOn self.old self.new) }
    {
        let Some(op) = self.unary_operator() else {
            return self.atom();
        };
        let at = self.take()?;
        let operand = self.atom()?;
        unary_node(self.alloc, at, op, operand)
    }

    /// A number, a truth value, a variable, an element of an array, or an expression in brackets.
    #[cycle(expr)]
    fn atom(&mut self) -> Result<Expr, Stop>
        ensures tree { IfOk result (λ e. IsExpr atom (left self.old) (plain_expr e) (left self.new)) }
        ensures run { (c : Bool) → Gives result self.old self.new (operand false c ∷ []) (behind_operand 5 c ∷ []) }
        ensures onward { OnOk result (GoesOn self.old self.new) }
    {
        if self.sees_number() {
            self.number()
        } else if self.sees_name() {
            self.variable()
        } else if self.sees_word(Keyword::True) {
            let at = self.take_word(Keyword::True)?;
            Ok(truth_node(at, true))
        } else if self.sees_word(Keyword::False) {
            let at = self.take_word(Keyword::False)?;
            Ok(truth_node(at, false))
        } else if self.sees_sign(Sign::LeftRound) {
            self.bracketed()
        } else {
            Err(Stop::Syntax)
        }
    }

    /// A number, which stands here.
    fn number(&mut self) -> Result<Expr, Stop>
        requires { sees is_numeral (left self.old) ≡ true }
        ensures tree { IfOk result (λ e. IsExpr atom (left self.old) (plain_expr e) (left self.new)) }
        ensures run { (c : Bool) → Gives result self.old self.new (operand false c ∷ []) (behind_operand 5 c ∷ []) }
        ensures onward { OnOk result (GoesOn self.old self.new) }
    {
        let number = self.take_number()?;
        Ok(number_node(number))
    }

    /// A variable, or an element of an array.
    #[cycle(expr)]
    fn variable(&mut self) -> Result<Expr, Stop>
        requires { sees is_name (left self.old) ≡ true }
        ensures tree { IfOk result (λ e. IsExpr atom (left self.old) (plain_expr e) (left self.new)) }
        ensures run { (c : Bool) → Gives result self.old self.new (operand false c ∷ []) (behind_operand 5 c ∷ []) }
        ensures onward { OnOk result (GoesOn self.old self.new) }
    {
        let name = self.take_name()?;
        if !self.sees_sign(Sign::LeftSquare) {
            return Ok(variable_node(name));
        }
        self.take_sign(Sign::LeftSquare)?;
        let index = self.expr()?;
        self.expect_sign(Sign::RightSquare)?;
        element_node(self.alloc, name, index)
    }

    /// An expression in brackets.
    #[cycle(expr)]
    fn bracketed(&mut self) -> Result<Expr, Stop>
        requires { sees (is_sign Sign.LeftRound) (left self.old) ≡ true }
        ensures tree { IfOk result (λ e. IsExpr atom (left self.old) (plain_expr e) (left self.new)) }
        ensures run { (c : Bool) → Gives result self.old self.new (operand false c ∷ []) (behind_operand 5 c ∷ []) }
        ensures onward { OnOk result (GoesOn self.old self.new) }
    {
        self.take_sign(Sign::LeftRound)?;
        let inner = self.expr()?;
        self.expect_sign(Sign::RightRound)?;
        Ok(inner)
    }
}

fn number_node(placed: Placed) -> Expr
    ensures { plain_expr result ≡ number placed.at placed.value }
{
    Expr {
        at: placed.at,
        what: ExprKind::Number(placed.value),
    }
}

fn truth_node(at: At, value: bool) -> Expr
    ensures { plain_expr result ≡ truth at value }
{
    Expr {
        at,
        what: ExprKind::Truth(value),
    }
}

fn variable_node(name: Named) -> Expr
    ensures { plain_expr result ≡ variable name.at name.name }
{
    Expr {
        at: name.at,
        what: ExprKind::Var(name.name),
    }
}

fn element_node(alloc: Global, name: Named, index: Expr) -> Result<Expr, Stop>
    ensures node { IfOk result (λ e. plain_expr e ≡ element name.at name.name (plain_expr index)) }
    ensures memory { IfErr result (λ stop. stop ≡ Stop.NoMemory) }
{
    let index = Boxed::new(alloc, index)?;
    Ok(Expr {
        at: name.at,
        what: ExprKind::Index(name.name, index),
    })
}

/// Two expressions joined by an operator, which stands at this place.
fn binary_node(alloc: Global, at: At, op: Op, left: Expr, right: Expr) -> Result<Expr, Stop>
    ensures node { IfOk result (λ e. plain_expr e ≡ binary at op (plain_expr left) (plain_expr right)) }
    ensures memory { IfErr result (λ stop. stop ≡ Stop.NoMemory) }
{
    let left = Boxed::new(alloc, left)?;
    let right = Boxed::new(alloc, right)?;
    Ok(Expr {
        at,
        what: ExprKind::Binary(op, left, right),
    })
}

/// An expression behind an operator, which stands at this place.
fn unary_node(alloc: Global, at: At, op: Op, operand: Expr) -> Result<Expr, Stop>
    ensures node { IfOk result (λ e. plain_expr e ≡ unary at op (plain_expr operand)) }
    ensures memory { IfErr result (λ stop. stop ≡ Stop.NoMemory) }
{
    let operand = Boxed::new(alloc, operand)?;
    Ok(Expr {
        at,
        what: ExprKind::Unary(op, operand),
    })
}
