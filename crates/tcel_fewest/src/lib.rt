//! The fewest tasks of a set that have to be sliced, which ones, and what is wrong with each set before
//! (docs/analysis.md).
#![tactic(auto)]

mod examples;
mod fault;
mod search;
mod sets;

pub use examples::{order_examples, plan_examples, set_examples};
pub use fault::{Fewest, SetFault, Why};
pub use search::fewest;
pub use sets::has;
