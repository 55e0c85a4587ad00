ghost use Rattle.std.specs.Prelude.{◌≡◌};
ghost use Rattle.tcel_num.specs.Hyperperiod.{demand};
ghost use Rattle.tcel_demand.specs.Sound.{AreWithin};

use crate::plan::TaskPlan;

/// The cycles of all frames that are released in one hyperperiod of `hyper` ticks (docs/analysis.md).
pub fn demand_over(plans: &[TaskPlan], hyper: u64) -> u64
    requires { AreWithin plans.now hyper }
    ensures { result ≡ demand plans.now hyper }
{
    let mut cycles = 0;
    for plan in plans {
        cycles += plan.total * (hyper / plan.period);
    }
    cycles
}
