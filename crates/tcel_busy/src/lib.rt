//! Which points are late, and the worst responses, from the busy periods of a set of plans alone.
#![tactic(auto)]

mod examples;
mod gap;
mod lateness;
mod law;
mod stretch;
mod walk;
mod worst_case;

pub use examples::busy_example;
pub use lateness::late;
pub use law::busy_period_law;
pub use worst_case::{worst, worst_of_task};
