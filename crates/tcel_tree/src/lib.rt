//! Trees: a program as its text states it, with the place of each name, number, statement and expression (docs/language.md).
#![tactic(auto)]

mod copies;
mod expr;
mod laws;
mod placed;
mod stmt;
mod task;

pub use copies::copy;
pub use expr::{Expr, ExprKind};
pub use laws::plain_laws;
pub use placed::Placed;
pub use stmt::{Stmt, StmtKind, Window};
pub use task::{Decl, DeclKind, Program, Task};
