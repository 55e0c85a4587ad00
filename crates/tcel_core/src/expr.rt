use sqlite_items::Boxed;
use tcel_num::Op;

/// An expression. Variables go by their numbers in the task; `true` is 1 and `false` is 0 (docs/language.md).
#[derive(Debug, Drop)]
pub enum CoreExpr {
    Number(i64),
    Var(u32),
    /// The element of an array at an index.
    Index(u32, Boxed<CoreExpr>),
    Unary(Op, Boxed<CoreExpr>),
    Binary(Op, Boxed<CoreExpr>, Boxed<CoreExpr>),
}
