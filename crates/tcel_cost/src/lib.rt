//! What bodies cost, over every walk through them, and the plans that follow from it (docs/analysis.md).
#![tactic(auto)]

mod bodies;
mod counts;
mod cycles;
mod examples;
mod holds;
mod laws;
mod numbers;
mod plans;
mod points;

pub use bodies::cost_of;
pub use examples::{cost_examples, plan_examples};
pub use laws::{plans_are_unique, walks_are_steady};
pub use numbers::Cost;
pub use plans::{CostFail, plan};
