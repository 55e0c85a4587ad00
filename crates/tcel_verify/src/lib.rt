//! Verified images: an image is checked once, and what holds one knows that it is valid.
#![tactic(auto)]

mod flaws;
mod instr;
mod names;
mod ready;

pub use flaws::verify;
pub use ready::Ready;
pub use tcel_image::{Flaw, FlawKind};
