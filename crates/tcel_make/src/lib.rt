//! Programs and scripts of any number of tasks, made from a seed: large inputs that are the same each time (docs/formats.md).
#![tactic(auto)]

mod examples;
mod program;
mod script;
mod writing;

pub use examples::text_examples;
pub use program::make;
pub use script::make_script;
