ghost use Rattle.std.specs.Prelude.{◌≡◌, ◌^◌, ◌<◌, ◌≤◌, ℕ, Some, IfOk, length, slice_get};
ghost use Rattle.tcel_num.specs.Plan.{Plan, frame};
ghost use Rattle.tcel_demand.specs.Sound.{Fit, HasPoint};

use sqlite_items::Items;
use std::alloc::{AllocError, Global};
use std::test::Fail;
use tcel_busy::{late, worst, worst_of_task};
use tcel_demand::{Late, Point, PointName, TaskPlan, Worst};

fn point(prefix: u64, bound: u64) -> Point
    ensures { result ≡ record { prefix = prefix; bound = bound; name = frame } }
{
    Point {
        prefix,
        bound,
        name: PointName::Frame,
    }
}

fn plan(alloc: Global, period: u64, total: u64, points: &[Point]) -> Result<TaskPlan, AllocError>
    ensures { IfOk result (λ plan. plan ≡ record { period = period; total = total; points = points.now }) }
{
    Ok(TaskPlan {
        period,
        total,
        points: Items::from_slice(alloc, points)?,
    })
}

// 26 cycles of 70 ticks and 62 of 100, whose frames queue
fn two_plans(alloc: Global, bound: u64) -> Result<[TaskPlan; 2], AllocError>
    requires some { 0 < bound }
    requires most { bound ≤ 10 ^ 9 }
    ensures fit { IfOk result (λ plans. (hyper : ℕ) × Fit plans hyper) }
    ensures point { IfOk result (λ plans. HasPoint plans 1 0) }
    ensures one { IfOk result (λ plans. (plan : Plan) → slice_get plans 1 ≡ Some plan
        → 1 ≡ length plan.points) }
{
    let quick = plan(alloc, 70, 26, &[point(26, 70)])?;
    let slow = plan(alloc, 100, 62, &[point(62, bound)])?;
    Ok([quick, slow])
}

// a demand equal to the hyperperiod
fn close_plans(alloc: Global, bound: u64) -> Result<[TaskPlan; 2], AllocError>
    requires some { 0 < bound }
    requires most { bound ≤ 10 ^ 9 }
    ensures fit { IfOk result (λ plans. (hyper : ℕ) × Fit plans hyper) }
    ensures point { IfOk result (λ plans. HasPoint plans 1 0) }
{
    let quick = plan(alloc, 4, 2, &[point(2, 4)])?;
    let slow = plan(alloc, 6, 3, &[point(3, bound)])?;
    Ok([quick, slow])
}

// a hyperperiod of 249,999,500,000 ticks
fn long_plans(alloc: Global) -> Result<[TaskPlan; 2], AllocError>
    ensures fit { IfOk result (λ plans. (hyper : ℕ) × Fit plans hyper) }
    ensures point { IfOk result (λ plans. HasPoint plans 1 0) }
{
    let first = plan(alloc, 499_999, 2, &[point(1, 499_999)])?;
    let second = plan(alloc, 500_000, 2, &[point(1, 500_000)])?;
    Ok([first, second])
}

// points that don't stand in the order of their prefixes, two of them alike
fn one_plan(alloc: Global) -> Result<[TaskPlan; 1], AllocError>
    ensures fit { IfOk result (λ plans. (hyper : ℕ) × Fit plans hyper) }
    ensures three { IfOk result (λ plans. (plan : Plan) → slice_get plans 0 ≡ Some plan
        → 3 ≡ length plan.points) }
{
    Ok([plan(alloc, 10, 6, &[point(6, 5), point(2, 1), point(6, 5)])?])
}

fn shortest_plan(alloc: Global) -> Result<[TaskPlan; 1], AllocError>
    ensures fit { IfOk result (λ plans. (hyper : ℕ) × Fit plans hyper) }
    ensures point { IfOk result (λ plans. HasPoint plans 0 0) }
{
    Ok([plan(alloc, 1, 1, &[point(1, 1)])?])
}

// as many as there may be: one cycle of 16 ticks each
fn sixteen_plans(alloc: Global) -> Result<Vec<TaskPlan>, AllocError>
    ensures fit { IfOk result (λ plans. (hyper : ℕ) × Fit plans.items hyper) }
    ensures last { IfOk result (λ plans. HasPoint plans.items 15 0) }
{
    let mut plans = Vec::new(alloc);
    for _ in 0..16u64 {
        plans.push(plan(alloc, 16, 1, &[point(1, 16)])?)?;
    }
    Ok(plans)
}

fn lateness(task: usize, frame: u64, response: u64, bound: u64) -> Option<Late> {
    Some(Late {
        task,
        frame,
        point: 0,
        name: PointName::Frame,
        response,
        bound,
    })
}

#[test]
fn two_plans_are_late_in_the_fifth_frame(rt: HostRuntime) -> Result<(), Fail> {
    let in_time = two_plans(rt.alloc(), 118)?;
    let fifth = Worst {
        frame: 4,
        response: 118,
    };
    assert_eq!(rt; late(&in_time), None);
    assert_eq!(rt; worst(&in_time, 1, 0), fifth);
    let mut all = [Worst {
        frame: 9,
        response: 9,
    }];
    worst_of_task(&in_time, 1, &mut all);
    assert_eq!(rt; all[0], fifth);
    assert_eq!(rt;
        late(&two_plans(rt.alloc(), 117)?),
        lateness(1, 4, 118, 117)
    );
    Ok(())
}

#[test]
fn a_demand_equal_to_the_hyperperiod_is_included(rt: HostRuntime) -> Result<(), Fail> {
    let in_time = close_plans(rt.alloc(), 7)?;
    assert_eq!(rt; late(&in_time), None);
    assert_eq!(rt;
        worst(&in_time, 1, 0),
        Worst {
            frame: 0,
            response: 7
        }
    );
    assert_eq!(rt; late(&close_plans(rt.alloc(), 6)?), lateness(1, 0, 7, 6));
    Ok(())
}

#[test]
fn a_long_hyperperiod_takes_no_time(rt: HostRuntime) -> Result<(), Fail> {
    let plans = long_plans(rt.alloc())?;
    assert_eq!(rt; late(&plans), None);
    assert_eq!(rt;
        worst(&plans, 1, 0),
        Worst {
            frame: 0,
            response: 3
        }
    );
    Ok(())
}

#[test]
fn the_first_late_point_goes_by_the_order_of_the_plan(rt: HostRuntime) -> Result<(), Fail> {
    let plans = one_plan(rt.alloc())?;
    assert_eq!(rt; late(&plans), lateness(0, 0, 6, 5));
    let mut all = [Worst {
        frame: 9,
        response: 9,
    }; 3];
    worst_of_task(&plans, 0, &mut all);
    assert_eq!(rt; all.map(|one| one.response), [6, 2, 6]);
    let shortest = shortest_plan(rt.alloc())?;
    assert_eq!(rt; late(&shortest), None);
    assert_eq!(rt;
        worst(&shortest, 0, 0),
        Worst {
            frame: 0,
            response: 1
        }
    );
    Ok(())
}

#[test]
fn sixteen_plans_fill_their_period(rt: HostRuntime) -> Result<(), Fail> {
    let plans = sixteen_plans(rt.alloc())?;
    assert_eq!(rt; late(&plans), None);
    assert_eq!(rt;
        worst(&plans, 15, 0),
        Worst {
            frame: 0,
            response: 16
        }
    );
    Ok(())
}
