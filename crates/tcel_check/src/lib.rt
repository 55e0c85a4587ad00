//! Checked sets: the faults and limits of a program, and the core tasks of one that has none (docs/language.md).
#![tactic(auto)]

mod checking;
mod core_exprs;
mod core_stmts;
mod core_tasks;
mod examples;
mod exprs;
mod fail;
mod head;
mod laws;
mod least;
mod mark;
mod names;
mod next;
mod numbering;
mod numbers;
mod purpose;
mod stmts;
mod tasks;
mod value_type;
mod walk;

pub use checking::check;
pub use examples::{bound_examples, limit_examples, name_examples, order_examples, set_examples};
pub use fail::{CheckFail, CheckKind, LimitKind};
pub use laws::set_laws;
pub use mark::{Mark, Row};
