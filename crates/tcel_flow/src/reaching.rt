ghost use Rattle.std.specs.Prelude.{◌≡◌, ◌≤◌, length};
ghost use Rattle.tcel_core.specs.Kept.{reaches};
ghost use Rattle.tcel_core.specs.Plain.{plain_body, plain_task};
ghost use Rattle.tcel_core.specs.Sound.{IsSoundTask};
ghost use Rattle.tcel_flow.specs.Backward.{Goes, IsStart, Passes, from_end};
ghost use Rattle.tcel_flow.specs.Reaching.{is_asked, is_source, plain_use, reaching, writes_it};
ghost use Rattle.tcel_flow.specs.Shape.{AreSteps, places};

use crate::shape::Flow;
use crate::step::Step;
use tcel_core::CoreTask;

/// What uses a variable: an item, or the test of an `if`, by its number.
#[derive(Clone, Copy, Debug, PartialEq, Eq)]
pub enum Use {
    Item(u32),
    Test(u32),
}

/// Whether the item reaches the use for the variable: on some path it stands before the use, which reads the variable,
/// it writes it, and nothing between them does. False for numbers of no item, test or variable (docs/slicing.md).
pub fn reaches(task: &CoreTask, flow: &Flow, from: u32, to: Use, var: u32) -> bool
    requires sound { IsSoundTask (plain_task task.now) }
    requires shape { AreSteps flow.now.shape (places (plain_body task.now.body)) }
    ensures { result ≡ reaches (plain_body task.now.body) from (plain_use to) var }
{
    let _ = task;
    if var > 255 {
        return false;
    }
    let question = Question { from, to, var };
    let steps = flow.shape.as_slice();
    let none = Found {
        ends: false,
        found: false,
    };
    let (_, all) = before_branch(&question, steps, steps.len(), none);
    all.found
}

/// The use that is asked for, the item from which the value is to come, and the variable.
#[derive(Clone, Copy, Debug)]
struct Question {
    from: u32,
    to: Use,
    var: u32,
}

/// What is known before a step: whether some path from there meets the use before a write, and whether some path from a
/// write by the item does.
#[derive(Clone, Copy, Debug)]
struct Found {
    ends: bool,
    found: bool,
}

/// Goes from behind the last of so many steps to the start of the branch that they end in: how many stand before it, and
/// what is known there.
#[cycle(reaching)]
fn before_branch(question: &Question, steps: &[Step], count: usize, behind: Found) -> (usize, Found)
    requires { count ≤ length steps.now }
    ensures within { result.0 ≤ count }
    ensures start { IsStart (from_end steps.now result.0) }
    ensures goes { Goes (reaching question.now) (from_end steps.now count) (from_end steps.now result.0) behind result.1 }
{
    let mut left = count;
    let mut known = behind;
    while left > 0 {
        match &steps[left - 1] {
            Step::Item { .. } => {
                known = before_item(question, &steps[left - 1], known);
                left -= 1;
            }
            Step::Close => {
                let (before, joined) = before_choice(question, steps, left - 1, known);
                left = before;
                known = joined;
            }
            Step::Middle | Step::Open { .. } => return (left, known),
        }
    }
    (left, known)
}

/// Goes from the end of the second branch of an `if` to what stands before it.
#[cycle(reaching)]
fn before_choice(question: &Question, steps: &[Step], count: usize, behind: Found) -> (usize, Found)
    requires { count ≤ length steps.now }
    ensures within { result.0 ≤ count }
    ensures passes { Passes (reaching question.now) (from_end steps.now count) (from_end steps.now result.0) behind result.1 }
{
    let (middle, second) = before_branch(question, steps, count, behind);
    let again = Found {
        ends: behind.ends,
        found: second.found,
    };
    if middle == 0 {
        return (0, again);
    }
    let (open, first) = before_branch(question, steps, middle - 1, again);
    if open == 0 {
        return (0, first);
    }
    let known = before_test(question, &steps[open - 1], second, first);
    (open - 1, known)
}

/// What is known before an item.
fn before_item(question: &Question, step: &Step, behind: Found) -> Found
    ensures { result ≡ (reaching question.now).item step.now behind }
{
    let written = is_written(question, step);
    Found {
        ends: is_asked(question, step) || (!written && behind.ends),
        found: behind.found || (is_source(question, step) && written && behind.ends),
    }
}

/// What is known before the test of an `if`, by what its second and its first branch left.
fn before_test(question: &Question, step: &Step, second: Found, first: Found) -> Found
    ensures { result ≡ (reaching question.now).join step.now second second first }
{
    Found {
        ends: is_asked(question, step) || (first.ends || second.ends),
        found: first.found,
    }
}

/// Whether the step is the use that is asked for, and reads the variable.
fn is_asked(question: &Question, step: &Step) -> bool
    ensures { result ≡ is_asked question.now step.now }
{
    match (step, question.to) {
        (Step::Item { id, reads, .. }, Use::Item(item)) => *id == item && reads.has(question.var),
        (Step::Open { test, reads }, Use::Test(to)) => *test == to && reads.has(question.var),
        _ => false,
    }
}

/// Whether the step writes the variable.
fn is_written(question: &Question, step: &Step) -> bool
    ensures { result ≡ writes_it question.now step.now }
{
    match step {
        Step::Item { writes, .. } => writes.has(question.var),
        _ => false,
    }
}

/// Whether the step is the item from which the value is to come.
fn is_source(question: &Question, step: &Step) -> bool
    ensures { result ≡ is_source question.now step.now }
{
    match step {
        Step::Item { id, .. } => *id == question.from,
        _ => false,
    }
}
