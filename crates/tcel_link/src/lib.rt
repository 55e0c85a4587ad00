//! Links between tasks: which outputs feed which inputs, and the values that linked inputs receive (docs/language.md).
#![tactic(auto)]

mod examples;
mod fail;
mod feed;
mod laws;
mod link;
mod port;
mod read;
mod receives;
mod resolving;
mod run;

pub use examples::{condition_examples, link_examples, linked_examples, trace_examples};
pub use fail::LinkFail;
pub use laws::{linked_laws, linked_traces_meet};
pub use link::{Link, Links};
pub use read::read_links;
pub use resolving::resolve;
