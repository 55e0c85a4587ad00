ghost use Rattle.std.specs.Prelude.{◌≡◌, [], ◌∷◌, ◌^◌, ◌<◌, ◌≤◌, IfOk};
ghost use Rattle.tcel_num.specs.Plan.{frame};
ghost use Rattle.tcel_demand.specs.Sound.{Fit, HasPoint};

use sqlite_items::Items;
use std::alloc::{AllocError, Global};
use std::test::Fail;
use tcel_demand::{
    Demand, Late, Point, PointName, TaskPlan, Worst, demand_over, late_plain, worst_plain,
};

// a frame of so many cycles, all of them within the bound
fn plan(alloc: Global, period: u64, total: u64, bound: u64) -> Result<TaskPlan, AllocError>
    ensures { IfOk result (λ plan. plan ≡ record {
      period = period;
      total = total;
      points = record { prefix = total; bound = bound; name = frame } ∷ [];
    }) }
{
    let point = Point {
        prefix: total,
        bound,
        name: PointName::Frame,
    };
    Ok(TaskPlan {
        period,
        total,
        points: Items::from_slice(alloc, &[point])?,
    })
}

fn two_plans(alloc: Global, bound: u64) -> Result<[TaskPlan; 2], AllocError>
    requires some { 0 < bound }
    requires most { bound ≤ 10 ^ 9 }
    ensures fit { IfOk result (λ plans. Fit plans 700) }
    ensures point { IfOk result (λ plans. HasPoint plans 1 0) }
{
    let quick = plan(alloc, 70, 26, 70)?;
    let slow = plan(alloc, 100, 62, bound)?;
    Ok([quick, slow])
}

#[test]
fn two_plans_are_late_in_the_fifth_frame(rt: HostRuntime) -> Result<(), Fail> {
    let in_time = two_plans(rt.alloc(), 118)?;
    assert_eq!(rt; demand_over(&in_time, 700), 694);
    assert_eq!(rt; late_plain(&in_time, 700), None);
    assert_eq!(rt;
        worst_plain(&in_time, 700, 1, 0),
        Worst {
            frame: 4,
            response: 118
        }
    );
    let late = two_plans(rt.alloc(), 117)?;
    let fifth = Late {
        task: 1,
        frame: 4,
        point: 0,
        name: PointName::Frame,
        response: 118,
        bound: 117,
    };
    assert_eq!(rt; late_plain(&late, 700), Some(fifth));
    Ok(())
}

#[test]
fn the_schedule_serves_the_highest_pending_task(rt: HostRuntime) -> Result<(), Fail> {
    let plans = two_plans(rt.alloc(), 118)?;
    let mut schedule = Demand::new(&plans);
    for _ in 0..26u64 {
        assert_eq!(rt; schedule.tick(), Some(0));
    }
    assert_eq!(rt; schedule.tick(), Some(1));
    assert_eq!(rt;
        [schedule.served(0), schedule.served(1), schedule.now()],
        [26, 1, 27]
    );
    Ok(())
}
