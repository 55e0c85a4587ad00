//! Why the two parts of a sliced task do what its body does (docs/slicing.md).
#![tactic(auto)]

mod law;

pub use law::{own_parts_are_in_scope, parts_mean_the_body};
