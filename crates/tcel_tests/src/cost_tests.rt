ghost use Rattle.std.specs.Prelude.{◌≤◌, ◌^◌};
ghost use Rattle.tcel_core.specs.Plain.{plain_task};
ghost use Rattle.tcel_core.specs.Sound.{IsSoundTask};
ghost use Rattle.tcel_target.specs.Costs.{CostsInRange};

use crate::programs::{own_parts, task_in};
use std::alloc::Global;
use std::process::Abort;
use std::test::Fail;
use tcel_core::CoreTask;
use tcel_cost::{Cost, CostFail, cost_of, plan};
use tcel_demand::{Point, PointName, TaskPlan};
use tcel_target::{CostKey, Costs};

const HEAD: &[u8] =
    b"task t priority 1 { input s; output o; state int n; local int i; local int j; local int k; ";

// Compares the numbers of a body with unit costs, entered after so many cycles.
fn compare_cost(
    rt: &(impl Abort + AllocGlobal),
    body: &[u8],
    entry: u64,
    wanted: Cost,
) -> Result<(), Fail>
    requires { entry ≤ 10 ^ 9 }
{
    let task = task_in(rt.alloc(), HEAD, (b"every 100", body))?;
    let found = cost_of(&task.body, task.vars.as_slice(), entry, &Costs::unit());
    assert_eq!(rt; found, wanted, "{body:?}");
    Ok(())
}

fn numbers(total: u64, first: Option<u64>, last: Option<u64>, quiet: Option<u64>) -> Cost {
    Cost {
        total,
        first,
        last,
        quiet,
    }
}

#[test]
fn costs_of_bodies(rt: HostRuntime) -> Result<(), Fail> {
    let dearer_else: &[u8] =
        b"if n > 0 { send n to o; } else { n := n + 1; n := n + 1; } send n to o;";
    compare_cost(&rt, dearer_else, 0, numbers(14, Some(14), Some(14), None))?;
    let late = Some(1_000_000_014);
    compare_cost(
        &rt,
        dearer_else,
        1_000_000_000,
        numbers(1_000_000_014, late, late, None),
    )?;
    compare_cost(
        &rt,
        b"for i < 3 { for j < 2 { n := n + 1; } if n > 4 { send n to o; } }",
        0,
        numbers(77, Some(72), Some(76), Some(71)),
    )?;
    compare_cost(
        &rt,
        b"while n < 0 limit 4 { send n to o; } send 1 to o;",
        0,
        numbers(32, Some(8), Some(32), None),
    )?;
    compare_cost(
        &rt,
        b"do start after 3 { send n to o; } n := n + 1; do start after 5 { send n to o; }",
        0,
        numbers(12, Some(5), Some(12), None),
    )
}

// The plan of a task, whole or in its own parts.
fn plan_of(
    alloc: Global,
    task: &CoreTask,
    sliced: bool,
    costs: &Costs,
) -> Result<TaskPlan, CostFail>
    requires sound { IsSoundTask (plain_task task.now) }
    requires costs { CostsInRange costs.now }
{
    let Ok(own) = own_parts(alloc, task) else {
        return Err(CostFail::NoMemory);
    };
    plan(alloc, task, &own, sliced, costs)
}

// Compares the plan of a body, whole or sliced: its cycles and its points.
fn compare_plan(
    rt: &(impl Abort + AllocGlobal),
    body: &[u8],
    sliced: bool,
    costs: &Costs,
    total: u64,
    points: &[Point],
) -> Result<(), Fail>
    requires { CostsInRange costs.now }
{
    let task = task_in(rt.alloc(), HEAD, (b"every 100", body))?;
    let found = plan_of(rt.alloc(), &task, sliced, costs)?;
    assert_eq!(rt; (found.period, found.total), (100, total), "{body:?}");
    assert_eq!(rt; found.points.as_slice(), points, "{body:?}");
    Ok(())
}

fn point(prefix: u64, bound: u64, name: PointName) -> Point {
    Point {
        prefix,
        bound,
        name,
    }
}

#[test]
fn points_of_blocks(rt: HostRuntime) -> Result<(), Fail> {
    let frame = point(13, 100, PointName::Frame);
    let within = point(12, 12, PointName::Within(1));
    compare_plan(
        &rt,
        b"do start after 10 finish within 12 { send 1 to o; }",
        false,
        &Costs::unit(),
        14,
        &[frame, within],
    )?;
    let before = point(12, 15, PointName::Before(1));
    compare_plan(
        &rt,
        b"receive i from s; do start before 15 { if i > 0 { n := n + 1; } else { send n to o; } send 5 to o; }",
        false,
        &Costs::unit(),
        14,
        &[frame, before],
    )?;
    let within = point(12, 30, PointName::Within(1));
    compare_plan(
        &rt,
        b"i := 1; do start after 10 finish within 30 { send i to o; }",
        false,
        &Costs::unit(),
        14,
        &[frame, within],
    )
}

#[test]
fn a_loop_whole_and_sliced(rt: HostRuntime) -> Result<(), Fail> {
    let body: &[u8] = b"for i < 2 { send i to o; n := n + 1; }";
    let whole = point(21, 100, PointName::Frame);
    compare_plan(&rt, body, false, &Costs::unit(), 22, &[whole])?;
    let mut costs = Costs::unit();
    costs.set(CostKey::Dispatch, 3);
    let sliced = point(24, 100, PointName::Frame);
    compare_plan(&rt, body, true, &costs, 25, &[sliced])
}

#[test]
fn too_dear(rt: HostRuntime) -> Result<(), Fail> {
    let alloc = rt.alloc();
    let body: &[u8] = b"for i < 10 { for j < 4096 { for k < 4096 { n := n + 1; } } }";
    let task = task_in(alloc, HEAD, (b"every 100", body))?;
    for sliced in [false, true] {
        match plan_of(alloc, &task, sliced, &Costs::unit()) {
            Err(CostFail::TooDear { cycles }) => assert_eq!(rt; cycles, 1_174_609_974),
            _ => assert!(rt; false),
        }
    }
    Ok(())
}
