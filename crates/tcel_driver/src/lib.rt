//! How many of the lowest tasks of a set are sliced (docs/analysis.md).
#![tactic(auto)]

mod choice;
mod costing;
mod examples;
mod forms;
mod laws;
mod periods;
mod refused;
mod splitting;

pub use choice::{Choice, decide};
pub use examples::choice_examples;
pub use forms::{Forms, forms_of};
pub use laws::one_answer;
pub use refused::Refused;
