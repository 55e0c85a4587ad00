//! The two parts of a sliced task (docs/slicing.md).
#![tactic(auto)]

mod halves;
mod kinds;
mod live;
mod numbers;
mod renaming;
mod sets;
mod splits;
mod two_parts;

pub use two_parts::{PartsFail, parts};
