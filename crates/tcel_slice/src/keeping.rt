ghost use Rattle.std.specs.Prelude.{◌≡◌, ◌≤◌, ◌<◌, ◌||◌, ◌==◌, ℕ, Bool, IfOk, length};
ghost use Rattle.tcel_core.specs.Kept.{IsKeptSet};
ghost use Rattle.tcel_core.specs.Numbering.{item_numbers};
ghost use Rattle.tcel_core.specs.Plain.{plain_body, plain_task};
ghost use Rattle.tcel_core.specs.Rows.{stands_in};
ghost use Rattle.tcel_core.specs.Sound.{IsSoundTask};
ghost use Rattle.tcel_flow.specs.Backward.{IsStart, from_end};
ghost use Rattle.tcel_flow.specs.Shape.{AreSteps, IsRow, places};
ghost use Rattle.tcel_slice.specs.Keeping.{IsNeeded, Keeps, Known, Leaves, Steps, before_test, have_common, items_in, keep_item, marked, test_reads};

use sqlite_items::Items;
use std::alloc::Global;
use tcel_core::{CoreTask, ItemSet, Row};
use tcel_flow::{Flow, Step};
use tcel_num::NoMemory;

/// The items that the first part of the task keeps: the least set with each item that has an event, and with a member
/// each item that reaches it or a test around it; one truth value per item of the body (docs/slicing.md).
pub fn kept(alloc: Global, task: &CoreTask, flow: &Flow) -> Result<ItemSet, NoMemory>
    requires sound { IsSoundTask (plain_task task.now) }
    requires shape { AreSteps flow.now.shape (places (plain_body task.now.body)) }
    ensures kept { IfOk result (λ set. IsKeptSet (plain_body task.now.body) (marked set.list)) }
    ensures length { IfOk result (λ set. length set.list ≡ length (item_numbers (plain_body task.now.body))) }
{
    let _ = task;
    let steps = flow.shape.as_slice();
    let mut list = Items::from_vec(vec![in alloc; false; count_items(steps)]?);
    let none = Needed {
        row: Row::empty(),
        holds: false,
    };
    before_branch(steps, steps.len(), none, &mut list);
    Ok(ItemSet { list })
}

/// How many items there are.
pub(crate) fn count_items(steps: &[Step]) -> usize
    ensures { result ≡ items_in steps.now }
{
    let mut count: usize = 0;
    for step in steps {
        if let Step::Item { .. } = step {
            count += 1;
        }
    }
    count
}

/// The variables that kept items need which stand behind a place, and whether one stands in the branch so far.
#[derive(Clone, Copy, Debug)]
pub(crate) struct Needed {
    pub(crate) row: Row,
    pub(crate) holds: bool,
}

/// Goes from behind the last of so many steps to the start of the branch that they end in, and marks the kept items: how
/// many steps stand before it, and what is needed there.
#[cycle(keeping)]
pub(crate) fn before_branch(
    steps: &[Step],
    count: usize,
    behind: Needed,
    list: &mut Items<bool>,
) -> (usize, Needed)
    requires { count ≤ length steps.now }
    ensures within { result.0 ≤ count }
    ensures start { IsStart (from_end steps.now result.0) }
    ensures keeps { Keeps (from_end steps.now count) (from_end steps.now result.0) behind list.old result.1 list.new }
{
    let mut left = count;
    let mut needed = behind;
    while left > 0 {
        match &steps[left - 1] {
            Step::Item { .. } => {
                needed = before_item(&steps[left - 1], needed, list);
                left -= 1;
            }
            Step::Close => {
                let (before, joined) = before_choice(steps, left - 1, needed, list);
                left = before;
                needed = joined;
            }
            Step::Middle | Step::Open { .. } => return (left, needed),
        }
    }
    (left, needed)
}

/// Goes from the end of the second branch of an `if` to what stands before it.
#[cycle(keeping)]
fn before_choice(
    steps: &[Step],
    count: usize,
    behind: Needed,
    list: &mut Items<bool>,
) -> (usize, Needed)
    requires { count ≤ length steps.now }
    ensures within { result.0 ≤ count }
    ensures leaves { Leaves (from_end steps.now count) (from_end steps.now result.0) behind list.old result.1 list.new }
{
    let end = Needed {
        row: behind.row,
        holds: false,
    };
    let (middle, second) = before_branch(steps, count, end, list);
    let again = Needed {
        row: behind.row,
        holds: second.holds,
    };
    if middle == 0 {
        return (0, again);
    }
    let (open, first) = before_branch(steps, middle - 1, again, list);
    if open == 0 {
        return (0, first);
    }
    let needed = before_test(&steps[open - 1], behind, second, first);
    (open - 1, needed)
}

/// What is needed before an item, which is marked where it is kept.
fn before_item(step: &Step, behind: Needed, list: &mut Items<bool>) -> Needed
    ensures { Steps behind list.old result list.new (keep_item step.now) }
{
    match step {
        Step::Item {
            id,
            reads,
            writes,
            event,
        } => {
            if !is_kept(&behind.row, writes, *event) {
                return behind;
            }
            let mut row = behind.row;
            row.remove(writes);
            row.add(reads);
            mark(list, *id);
            Needed { row, holds: true }
        }
        _ => behind,
    }
}

/// Whether an item is kept: it has an event, or writes a needed variable.
fn is_kept(needed: &Row, writes: &Row, event: bool) -> bool
    ensures { (f : ℕ → Bool) → IsRow needed.now f → result ≡ (event || have_common (stands_in writes.now) f) }
{
    event || needed.meets(writes)
}

/// Marks an item, where the list has its number.
fn mark(list: &mut Items<bool>, id: u32)
    ensures long { length list.new ≡ length list.old }
    ensures marked { (n : ℕ) → n < length list.old → marked list.new n ≡ (marked list.old n || (id == n)) }
{
    let at = id as usize;
    if at < list.len() {
        list.set(at, true);
    }
}

/// What is needed before the test of an `if`, by what its second and its first branch need.
fn before_test(step: &Step, behind: Needed, second: Needed, first: Needed) -> Needed
    ensures { (a b c : Known) → IsNeeded behind a → IsNeeded second b → IsNeeded first c →
        IsNeeded result (before_test (test_reads step.now) a b c) }
{
    let mut row = first.row;
    row.add(&second.row);
    if let Step::Open { reads: tested, .. } = step {
        if first.holds {
            row.add(tested);
        }
    }
    Needed {
        row,
        holds: behind.holds || first.holds,
    }
}
