ghost use Rattle.std.specs.Prelude.{◌≤◌, ◌^◌, IfOk};
ghost use Rattle.tcel_demand.specs.Sound.{AreWithin};
ghost use Rattle.tcel_driver.specs.Steps.{ArePaired};

use crate::programs::set_of;
use std::alloc::Global;
use std::test::Fail;
use tcel_busy::late;
use tcel_demand::{TaskPlan, demand_over, late_plain};
use tcel_driver::{Forms, forms_of};
use tcel_make::make;
use tcel_target::Costs;

/// Both plans of each task of a made program.
fn made_forms(alloc: Global, seed: u64, tasks: u8) -> Result<Forms, Fail>
    requires some { 1 ≤ tasks }
    requires most { tasks ≤ 16 }
    ensures { IfOk result (λ forms. ArePaired forms.whole forms.sliced forms.hyper) }
{
    let text = make(alloc, seed, tasks)?;
    let set = set_of(alloc, &text)?;
    let forms = forms_of(alloc, &set, &Costs::unit())?;
    Ok(forms)
}

/// Whether the busy periods and the ticks of a hyperperiod show the same late point, where there is time for all.
fn agree(plans: &[TaskPlan], hyper: u64) -> bool
    requires within { AreWithin plans.now hyper }
    requires most { hyper ≤ 10 ^ 12 }
{
    demand_over(plans, hyper) > hyper || late(plans) == late_plain(plans, hyper)
}

#[test]
fn busy_periods_show_what_ticks_show(rt: HostRuntime) -> Result<(), Fail> {
    let alloc = rt.alloc();
    for seed in 1..21 {
        for tasks in 1..9 {
            let forms = made_forms(alloc, seed, tasks)?;
            assert!(rt; agree(forms.whole.as_slice(), forms.hyper));
            assert!(rt; agree(forms.sliced.as_slice(), forms.hyper));
        }
    }
    Ok(())
}
