//! The shape of a task's body: its items and tests with what they read and write, and who reaches whom (docs/slicing.md).
#![tactic(auto)]

mod around;
mod examples;
mod reaching;
mod shape;
mod step;

pub use around::stands_around;
pub use examples::shape_example;
pub use reaching::{Use, reaches};
pub use shape::{Flow, flow_of};
pub use step::Step;
pub use tcel_core::Row;
