//! The items that the first part of a sliced task keeps (docs/slicing.md).
#![tactic(auto)]

mod keeping;

pub use keeping::kept;
