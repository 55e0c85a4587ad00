ghost use Rattle.std.specs.Prelude.{◌≡◌, ◌<◌, ◌≤◌, ◌^◌, IfOk, if◌then◌else◌, length};
ghost use Rattle.tcel_fewest.specs.Sets.{has as has_task, plans_of, size_of as size};

use sqlite_items::Items;
use std::alloc::Global;
use tcel_demand::TaskPlan;
use tcel_driver::Forms;
use tcel_num::NoMemory;

/// Whether the set of this number has the task below which there are so many, at most 11; below the lowest
/// task there are 0 (docs/analysis.md).
pub fn has(set: u16, below: usize) -> bool
    requires { below < 12 }
    ensures { result ≡ has_task set below }
{
    (set >> below) % 2 == 1
}

/// How many sets of so many tasks there are; they are numbered from 0.
pub(crate) fn sets_of(tasks: usize) -> u16
    requires { tasks ≤ 12 }
    ensures { result ≡ 2 ^ tasks }
{
    1 << tasks
}

/// How many of so many lowest tasks the set has.
pub(crate) fn size_of(set: u16, tasks: usize) -> usize
    requires { tasks ≤ 12 }
    ensures { result ≡ size tasks set }
{
    let mut size = 0;
    for below in 0..tasks {
        size += has(set, below) as usize;
    }
    size
}

/// Copies of the plans of all tasks: of those in the set the sliced one, of each other the whole one.
pub(crate) fn plans_in(alloc: Global, forms: &Forms, set: u16) -> Result<Items<TaskPlan>, NoMemory>
    requires same { length forms.now.sliced ≡ length forms.now.whole }
    requires few { length forms.now.whole ≤ 12 }
    ensures { IfOk result (λ plans. plans ≡ plans_of set forms.now.whole forms.now.sliced) }
{
    let whole = forms.whole.as_slice();
    let sliced = forms.sliced.as_slice();
    let mut plans = Items::new(alloc);
    for task in 0..whole.len() {
        let in_set = has(set, whole.len() - 1 - task);
        let plan = plan_in(alloc, in_set, &whole[task], &sliced[task])?;
        plans.push(plan)?;
    }
    Ok(plans)
}

fn plan_in(
    alloc: Global,
    in_set: bool,
    whole: &TaskPlan,
    sliced: &TaskPlan,
) -> Result<TaskPlan, NoMemory>
    ensures { IfOk result (λ plan. plan ≡ (if in_set then sliced.now else whole.now)) }
{
    if in_set {
        copy_of(alloc, sliced)
    } else {
        copy_of(alloc, whole)
    }
}

fn copy_of(alloc: Global, plan: &TaskPlan) -> Result<TaskPlan, NoMemory>
    ensures { IfOk result (λ copy. copy ≡ plan.now) }
{
    Ok(TaskPlan {
        period: plan.period,
        total: plan.total,
        points: Items::from_slice(alloc, plan.points.as_slice())?,
    })
}
