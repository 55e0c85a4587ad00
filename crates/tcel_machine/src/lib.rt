//! The tick machine: it runs a verified image on a script, one tick a call.
#![tactic(auto)]

mod cycle;
mod entry;
mod execute;
mod laws;
mod machine;
mod stack;
mod start;
mod step;
mod task;
mod turn;

pub use entry::{Entry, What};
pub use laws::no_step_takes_a_default;
pub use machine::Machine;
