//! Core tasks: a checked program with its names resolved, what it means, and when a trace meets it (docs/language.md).
#![tactic(auto)]

mod body;
mod bounds;
mod cells;
mod evaluate;
mod event;
mod examples;
mod expr;
mod frames;
mod inputs;
mod item_set;
mod laws;
mod layout;
mod parts;
mod row;
mod set;
mod sizes;
mod slicing_examples;
mod soundness;
mod uses;
mod value;
mod var;

pub use body::{Body, CoreStmt, Item};
pub use cells::Cells;
pub use event::{Event, EventKind};
pub use examples::{frame_examples, meaning_examples, trace_examples};
pub use expr::CoreExpr;
pub use frames::frame;
pub use inputs::Inputs;
pub use item_set::ItemSet;
pub use laws::{meaning_laws, plain_laws, trace_laws};
pub use parts::Parts;
pub use row::Row;
pub use set::{CoreTask, Set};
pub use slicing_examples::{fetched_example, saved_example, split_example};
pub use soundness::sound_examples;
pub use uses::{add_expr_reads, add_reads, add_writes, has_event, reads, writes};
pub use var::{Keep, Var, VarKind};
