//! Images: the machine's tasks and their code, how their bytes spell them, and what a machine does with them.
#![tactic(auto)]

mod examples;
mod fault;
mod flaw;
mod image;
mod laws;
mod operands;
mod range;
mod reading;
mod writing;

pub use examples::machine_examples;
pub use fault::ImageFail;
pub use flaw::{Flaw, FlawKind};
pub use image::{Image, ImageState, ImageTask, Instr, Line, StateKind};
pub use laws::{spelling_example, spelling_laws};
pub use range::in_range;
pub use reading::decode;
pub use writing::encode;
