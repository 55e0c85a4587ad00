//! The code of bodies and the layout of images, and that every run of such an image meets its source (docs/machine.md).
#![tactic(auto)]

mod examples;
mod laws;

pub use examples::{
    counters_example, overrunning_example, pair_example, sliced_example, window_examples,
};
pub use laws::{
    expressions_cost_their_code, images_are_in_range, images_are_valid, runs_keep_abreast,
    sets_meet_their_source, slices_mean_their_body, whole_sets_meet_their_source,
};
