ghost use Rattle.std.specs.Prelude.{◌≤◌, ◌^◌, MatchOption};
ghost use Rattle.tcel_demand.specs.Sound.{AreWithin};
ghost use Rattle.tcel_driver.specs.Steps.{HaveTime};
ghost use Rattle.tcel_fewest.specs.Faults.{IsFault};

use sqlite_items::Items;
use tcel_busy::late;
use tcel_demand::{Late, TaskPlan, demand_over};

/// Why a set of sliced tasks doesn't fit.
#[derive(Clone, Copy, Debug, PartialEq, Eq)]
pub enum Why {
    /// The cycles that all tasks ask for in a hyperperiod, and its ticks.
    Overload { demand: u64, hyper: u64 },
    /// There is room; the first late point.
    Late(Late),
}

/// A set of sliced tasks that doesn't fit, by its number: of n tasks, the sum of 2^(n-1-i) over the numbers
/// i of those that are sliced.
#[derive(Clone, Copy, Debug, PartialEq, Eq)]
pub struct SetFault {
    pub tasks: u16,
    pub why: Why,
}

/// The first set of sliced tasks that fits, by its number, and None where none does; and what is wrong with
/// each set before it, in their order.
#[derive(Debug, Drop)]
pub struct Fewest {
    pub found: Option<u16>,
    pub faults: Items<SetFault>,
}

/// Why the plans don't fit; None where they have time.
pub(crate) fn fault_of(plans: &[TaskPlan], hyper: u64) -> Option<Why>
    requires within { AreWithin plans.now hyper }
    requires most { hyper ≤ 10 ^ 12 }
    ensures { MatchOption result (HaveTime plans.now hyper) (IsFault plans.now hyper) }
{
    let demand = demand_over(plans, hyper);
    if demand > hyper {
        return Some(Why::Overload { demand, hyper });
    }
    let first = late(plans)?;
    Some(Why::Late(first))
}
