//! A judge of traces: whether a trace, wherever it comes from, is one of a program on a script, and where it first
//! is not (docs/analysis.md).
#![tactic(auto)]

mod course;
mod examples;
mod judging;
mod laws;
mod lines;
mod missing;
mod states;
mod verdict;

pub use examples::{line_examples, missing_examples};
pub use judging::judge;
pub use laws::verdict_laws;
pub use verdict::{Breach, Due, Verdict};
