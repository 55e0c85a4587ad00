use sqlite_items::Boxed;
use tcel_num::{At, Name, Op};

/// An expression. Its place is its token: a number, `true`, `false`, a name, or its operator (docs/language.md).
#[cycle(expr)]
#[derive(Debug, Drop)]
pub struct Expr {
    pub at: At,
    pub what: ExprKind,
}

/// What an expression is. Round brackets leave no trace.
#[cycle(expr)]
#[derive(Debug, Drop)]
pub enum ExprKind {
    /// 0 or more, where it was read from a text.
    Number(i64),
    Truth(bool),
    Var(Name),
    /// The element of an array at an index.
    Index(Name, Boxed<Expr>),
    Unary(Op, Boxed<Expr>),
    Binary(Op, Boxed<Expr>, Boxed<Expr>),
}
