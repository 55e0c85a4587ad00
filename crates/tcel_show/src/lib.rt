//! Canonical text: a program as this compiler would write it (docs/language.md).
#![tactic(auto)]

mod blocks;
mod examples;
mod exprs;
mod laws;
mod level;
mod put;
mod stmts;
mod tasks;
mod writer;

pub use examples::text_examples;
pub use laws::show_laws;
pub use tasks::show;
