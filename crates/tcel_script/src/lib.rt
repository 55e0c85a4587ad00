//! Scripts: the values that a run's inputs receive, one line for each input (docs/formats.md).
#![tactic(auto)]

mod examples;
mod fail;
mod line;
mod number;
mod read;
mod row;
mod script;

pub use examples::script_examples;
pub use fail::ScriptFail;
pub use line::{is_comment, next_line, next_word};
pub use read::read_script;
pub use script::Script;
