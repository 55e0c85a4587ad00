//! The image of a checked set, of which so many of the last tasks are sliced into their parts (docs/code.md).
#![tactic(auto)]

mod cells;
mod code;
mod events;
mod firsts;
mod image;
mod laws;
mod lines;
mod pieces;
mod places;
mod sizes;
mod task;

pub use image::generate;
pub use laws::{forms_are_ready, images_are_ready, images_are_small, runs_meet_their_source};
