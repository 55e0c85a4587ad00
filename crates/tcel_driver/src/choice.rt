ghost use Rattle.std.specs.Prelude.{◌≡◌, ◌≤◌, ◌^◌, ℕ, IfErr, IfOk, MatchOption, map};
ghost use Rattle.tcel_core.specs.Parts.{plain_parts};
ghost use Rattle.tcel_core.specs.Plain.{plain_set};
ghost use Rattle.tcel_core.specs.Sound.{IsSoundSet};
ghost use Rattle.tcel_demand.specs.Sound.{AreWithin, Fit};
ghost use Rattle.tcel_target.specs.Costs.{CostsInRange};
ghost use Rattle.tcel_driver.specs.Choice.{IsChosen};
ghost use Rattle.tcel_driver.specs.Refusals.{Refuses};
ghost use Rattle.tcel_driver.specs.Steps.{ArePaired, HaveFault, HaveTime, IsFault, IsLeast};

use crate::forms::{Forms, forms_of};
use crate::refused::Refused;
use sqlite_items::Items;
use std::alloc::Global;
use tcel_busy::late;
use tcel_core::{Parts, Set};
use tcel_demand::{TaskPlan, demand_over};
use tcel_target::Costs;

/// How many of the lowest tasks of a set are sliced, the plans of all tasks in these forms, and the parts
/// of every task, whether it is sliced or not; all in falling priority.
#[derive(Debug, Drop)]
pub struct Choice {
    pub sliced: usize,
    pub plans: Items<TaskPlan>,
    pub parts: Items<Parts>,
}

/// The least number of sliced tasks that fits, each number from 0 asked in turn: slicing more tasks may
/// ask for more cycles, so nothing is known from another number. Refused for the first of its causes, in
/// the order of `Refused` (docs/analysis.md).
pub fn decide(alloc: Global, set: &Set, costs: &Costs) -> Result<Choice, Refused>
    requires sound { IsSoundSet (plain_set set.now) }
    requires costs { CostsInRange costs.now }
    ensures chosen { IfOk result (λ choice. IsChosen (plain_set set.now) costs.now
        choice.sliced choice.plans (map plain_parts choice.parts)) }
    ensures fit { IfOk result (λ choice. (hyper : ℕ) × Fit choice.plans hyper) }
    ensures refused { IfErr result (Refuses (plain_set set.now) costs.now) }
{
    let forms = forms_of(alloc, set, costs)?;
    choose(forms)
}

/// Begins with all tasks whole, and slices the lowest whole task until the plans have time.
fn choose(forms: Forms) -> Result<Choice, Refused>
    requires { ArePaired forms.whole forms.sliced forms.hyper }
    ensures least { IfOk result (λ choice. IsLeast forms.whole forms.sliced forms.hyper
        choice.sliced choice.plans) }
    ensures parts { IfOk result (λ choice. choice.parts ≡ forms.parts) }
    ensures fit { IfOk result (λ choice. Fit choice.plans forms.hyper) }
    ensures fault { IfErr result (HaveFault forms.whole forms.sliced forms.hyper) }
{
    let Forms {
        whole,
        sliced,
        parts,
        hyper,
    } = forms;
    let mut plans = whole;
    let mut left = sliced;
    while let Some(fault) = fault_of(plans.as_slice(), hyper) {
        let Some(plan) = left.pop() else {
            return Err(fault);
        };
        plans.set(left.len(), plan);
    }
    Ok(Choice {
        sliced: plans.len() - left.len(),
        plans,
        parts,
    })
}

/// Why the plans don't fit; None where they have time.
fn fault_of(plans: &[TaskPlan], hyper: u64) -> Option<Refused>
    requires within { AreWithin plans.now hyper }
    requires most { hyper ≤ 10 ^ 12 }
    ensures { MatchOption result (HaveTime plans.now hyper) (IsFault plans.now hyper) }
{
    let demand = demand_over(plans, hyper);
    if demand > hyper {
        return Some(Refused::Overload { demand, hyper });
    }
    let first = late(plans)?;
    Some(Refused::Late(first))
}
