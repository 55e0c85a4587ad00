//! The demand schedule of plans: what it serves when, which points are late, and the worst responses.
#![tactic(auto)]

mod demand;
mod examples;
mod late;
mod plan;
mod step;
mod total;
mod worst;

pub use demand::Demand;
pub use examples::{lateness_example, schedule_example};
pub use late::late_plain;
pub use plan::{Late, Point, PointName, TaskPlan, Worst};
pub use total::demand_over;
pub use worst::worst_plain;
