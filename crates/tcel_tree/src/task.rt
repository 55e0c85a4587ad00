use crate::placed::Placed;
use crate::stmt::Stmt;
use sqlite_items::Items;
use tcel_num::{At, Name};

/// A program: its tasks in text order.
#[derive(Debug, Drop)]
pub struct Program {
    pub tasks: Items<Task>,
}

/// A task. `period` and `finish`, the deadline of its frames where it was written, are in ticks. Its place is its name.
#[derive(Debug, Drop)]
pub struct Task {
    pub name: Name,
    pub at: At,
    pub priority: Placed,
    pub decls: Items<Decl>,
    pub period: Placed,
    pub finish: Option<Placed>,
    pub body: Items<Stmt>,
}

/// A declaration. Its place is its name.
#[derive(Clone, Copy, Debug)]
pub struct Decl {
    pub kind: DeclKind,
    pub name: Name,
    pub at: At,
}

/// What is declared: a port, or a variable that is kept from frame to frame where `state` holds, with its first value
/// where it was written.
#[derive(Clone, Copy, Debug, PartialEq, Eq)]
pub enum DeclKind {
    Input,
    Output,
    Int { state: bool, first: Option<i64> },
    Bool { state: bool, first: Option<bool> },
    Array { state: bool, length: Placed },
}
