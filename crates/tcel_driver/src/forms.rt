ghost use Rattle.std.specs.Prelude.{IfErr, IfOk, map};
ghost use Rattle.tcel_core.specs.Parts.{plain_parts};
ghost use Rattle.tcel_core.specs.Plain.{plain_set};
ghost use Rattle.tcel_core.specs.Sound.{IsSoundSet};
ghost use Rattle.tcel_target.specs.Costs.{CostsInRange};
ghost use Rattle.tcel_driver.specs.Forms.{AreForms};
ghost use Rattle.tcel_driver.specs.Refusals.{ForbidsForms};
ghost use Rattle.tcel_driver.specs.Steps.{ArePaired};

use crate::costing::{BothPlans, cost_all};
use crate::periods::{frames_within, hyperperiod_of};
use crate::refused::Refused;
use crate::splitting::split_all;
use sqlite_items::Items;
use std::alloc::Global;
use tcel_core::{Parts, Set};
use tcel_demand::TaskPlan;
use tcel_target::Costs;

/// Of each task of a set, in falling priority, its plan as a whole, its plan in two parts and these
/// parts; and the hyperperiod of the set in ticks, at most 10^12.
#[derive(Debug, Drop)]
pub struct Forms {
    pub whole: Items<TaskPlan>,
    pub sliced: Items<TaskPlan>,
    pub parts: Items<Parts>,
    pub hyper: u64,
}

// the most frames in a hyperperiod
const MOST_FRAMES: u64 = 1_000_000;

/// Both forms of each task: each is split once, and both forms are costed once. Refused for the first of
/// its causes, in the order of `Refused`, and never for `Overload` or `Late` (docs/analysis.md).
pub fn forms_of(alloc: Global, set: &Set, costs: &Costs) -> Result<Forms, Refused>
    requires sound { IsSoundSet (plain_set set.now) }
    requires costs { CostsInRange costs.now }
    ensures forms { IfOk result (λ forms. AreForms (plain_set set.now) costs.now
        (map plain_parts forms.parts) forms.whole forms.sliced forms.hyper) }
    ensures paired { IfOk result (λ forms. ArePaired forms.whole forms.sliced forms.hyper) }
    ensures refused { IfErr result (ForbidsForms (plain_set set.now) costs.now) }
{
    let tasks = set.tasks.as_slice();
    let parts = split_all(alloc, tasks)?;
    let both = cost_all(alloc, tasks, parts.as_slice(), costs)?;
    let hyper = hyperperiod_of(alloc, tasks)?;
    let frames = frames_within(tasks, hyper);
    if frames > MOST_FRAMES {
        return Err(Refused::TooManyFrames { frames });
    }
    let BothPlans { whole, sliced } = both;
    Ok(Forms {
        whole,
        sliced,
        parts,
        hyper,
    })
}
