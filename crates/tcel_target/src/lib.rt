//! Targets: what each kind of instruction and the start of a frame cost on a processor, from a TOML text (docs/formats.md).
#![tactic(auto)]

mod costs;
mod examples;
mod fail;
mod key_text;
mod laws;
mod read;

pub use costs::{CostKey, Costs};
pub use examples::target_examples;
pub use fail::TargetFail;
pub use key_text::KeyText;
pub use laws::target_laws;
pub use read::read_target;
