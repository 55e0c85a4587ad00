//! The grammar of programs: which trees a list of tokens has, where a list that is no program goes wrong, and the laws of both
//! (docs/language.md).
#![tactic(auto)]

mod deep;
mod examples;
mod laws;

pub use deep::Deep;
pub use examples::{fault_examples, tree_examples};
pub use laws::{machine_laws, one_answer, one_tree, some_answer};
