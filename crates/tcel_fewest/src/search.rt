ghost use Rattle.std.specs.Prelude.{◌+◌, ◌≤◌, IfOk, MatchOption, length};
ghost use Rattle.tcel_driver.specs.Steps.{ArePaired};
ghost use Rattle.tcel_fewest.specs.Faults.{AreFaults, IsAsked, IsFewest, IsReached, NoneFits};

use crate::fault::{Fewest, SetFault, fault_of};
use crate::sets::{plans_in, sets_of, size_of};
use sqlite_items::Items;
use std::alloc::Global;
use tcel_driver::Forms;
use tcel_num::NoMemory;

/// The fewest tasks that have to be sliced, for 1 to 12 tasks: sets of sliced tasks go by their size, and
/// sets of one size by their numbers (docs/analysis.md).
pub fn fewest(alloc: Global, forms: &Forms) -> Result<Fewest, NoMemory>
    requires paired { ArePaired forms.now.whole forms.now.sliced forms.now.hyper }
    requires few { length forms.now.whole ≤ 12 }
    ensures { IfOk result (λ answer. MatchOption answer.found
        (NoneFits forms.now.whole forms.now.sliced forms.now.hyper answer.faults)
        (λ found. IsFewest forms.now.whole forms.now.sliced forms.now.hyper found answer.faults)) }
{
    let mut faults = Items::new(alloc);
    for size in 0..forms.whole.len() + 1 {
        let found = first_of_size(alloc, forms, size, &mut faults)?;
        if found.is_some() {
            return Ok(Fewest { found, faults });
        }
    }
    Ok(Fewest {
        found: None,
        faults,
    })
}

/// The first set of this size that fits. The faults are those of all smaller sets, and the ones before it
/// are added.
fn first_of_size(
    alloc: Global,
    forms: &Forms,
    size: usize,
    faults: &mut Items<SetFault>,
) -> Result<Option<u16>, NoMemory>
    requires paired { ArePaired forms.now.whole forms.now.sliced forms.now.hyper }
    requires few { length forms.now.whole ≤ 12 }
    requires faults { AreFaults forms.now.whole forms.now.sliced forms.now.hyper
        (IsReached (length forms.now.whole) size 0) faults.old }
    ensures { IfOk result (λ found. MatchOption found
        (AreFaults forms.now.whole forms.now.sliced forms.now.hyper
        (IsReached (length forms.now.whole) (size + 1) 0) faults.new)
        (λ set. IsFewest forms.now.whole forms.now.sliced forms.now.hyper set faults.new)) }
{
    let tasks = forms.whole.len();
    for set in 0..sets_of(tasks) {
        if size_of(set, tasks) == size && fits(alloc, forms, set, faults)? {
            return Ok(Some(set));
        }
    }
    Ok(None)
}

/// Whether the set fits; where it doesn't, its fault is added.
fn fits(
    alloc: Global,
    forms: &Forms,
    set: u16,
    faults: &mut Items<SetFault>,
) -> Result<bool, NoMemory>
    requires paired { ArePaired forms.now.whole forms.now.sliced forms.now.hyper }
    requires few { length forms.now.whole ≤ 12 }
    ensures { IfOk result (λ fit. IsAsked forms.now.whole forms.now.sliced forms.now.hyper
        set fit faults.old faults.new) }
{
    let plans = plans_in(alloc, forms, set)?;
    match fault_of(plans.as_slice(), forms.hyper) {
        None => Ok(true),
        Some(why) => {
            faults.push(SetFault { tasks: set, why })?;
            Ok(false)
        }
    }
}
