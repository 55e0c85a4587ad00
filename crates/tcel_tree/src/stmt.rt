use crate::expr::Expr;
use crate::placed::Placed;
use sqlite_items::Items;
use tcel_num::{At, Name};

/// The clauses of a `do` block, in ticks after the release, where they were written (docs/language.md).
#[derive(Clone, Copy, Debug, PartialEq, Eq)]
pub struct Window {
    /// `start after`
    pub after: Option<Placed>,
    /// `start before`
    pub before: Option<Placed>,
    /// `finish within`
    pub within: Option<Placed>,
}

/// A statement. Its place is its first token.
#[cycle(stmt)]
#[derive(Debug, Drop)]
pub struct Stmt {
    pub at: At,
    pub what: StmtKind,
}

/// What a statement is (docs/language.md).
#[cycle(stmt)]
#[derive(Debug, Drop)]
pub enum StmtKind {
    Assign {
        name: Name,
        value: Expr,
    },
    AssignAt {
        name: Name,
        index: Expr,
        value: Expr,
    },
    Receive {
        name: Name,
        name_at: At,
        port: Name,
        port_at: At,
    },
    Send {
        value: Expr,
        port: Name,
        port_at: At,
    },
    /// `no` is the else block, where it was written.
    If {
        test: Expr,
        yes: Items<Stmt>,
        no: Option<Items<Stmt>>,
    },
    For {
        name: Name,
        name_at: At,
        turns: Placed,
        body: Items<Stmt>,
    },
    While {
        test: Expr,
        turns: Placed,
        body: Items<Stmt>,
    },
    Do {
        window: Window,
        body: Items<Stmt>,
    },
}
