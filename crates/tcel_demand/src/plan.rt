ghost use Rattle.std.specs.Prelude.{◌≡◌, ◌↔◌, IsTrue};

use sqlite_items::Items;
use std::alloc::AllocError;
use std::marker::Model;

/// What a point bounds: the frame's deadline, or `start before` or `finish within` of the task's n-th
/// `do`, from 1 (docs/analysis.md).
#[derive(Clone, Copy, Debug, PartialEq, Eq)]
pub enum PointName {
    Frame,
    Before(u32),
    Within(u32),
}

/// After `prefix` cycles of a frame the point is reached, which is to be within `bound` ticks after the
/// frame's release. Contracts see it as the plain point.
#[derive(Debug, PartialEq, Eq)]
pub struct Point {
    pub prefix: u64,
    pub bound: u64,
    pub name: PointName,
}

impl Model for Point {
    ghost use Rattle.tcel_num.specs.Plan.{Point};

    ghost Value = { Point };

    ghost use Rattle.tcel_demand.specs.PlanViews.{point_of, point_inside, point_inside-point_of};

    ghost view = { point_of };

    ghost inverse = { point_inside };

    ghost inverse_ok = { λ a _. point_inside-point_of a };
}

impl Copy for Point {}

impl Clone for Point {
    ghost is_clone = { λ point copy. copy ≡ point };

    fn clone(&self) -> Result<Point, AllocError> {
        Ok(*self)
    }
}

/// What a task asks of the processor: each `period` of ticks a frame of at most `total` cycles, with these
/// points in order. Contracts see it as the plain plan.
#[derive(Debug, Drop)]
pub struct TaskPlan {
    pub period: u64,
    pub total: u64,
    pub points: Items<Point>,
}

impl Model for TaskPlan {
    ghost use Rattle.tcel_num.specs.Plan.{Plan};

    ghost Value = { Plan };

    ghost use Rattle.tcel_demand.specs.PlanViews.{plan_of};

    ghost view = { plan_of };
}

/// The first late point: frame `frame` of task `task` reaches its point number `point`, all from 0, in
/// `response` ticks, which are more than the `bound`. Contracts see it as the plain lateness.
#[derive(Debug, PartialEq, Eq)]
pub struct Late {
    pub task: usize,
    pub frame: u64,
    pub point: usize,
    pub name: PointName,
    pub response: u64,
    pub bound: u64,
}

impl Model for Late {
    ghost use Rattle.tcel_num.specs.Lateness.{Lateness};

    ghost Value = { Lateness };

    ghost use Rattle.tcel_demand.specs.PlanViews.{lateness_of, late_inside, late_inside-lateness_of};

    ghost view = { lateness_of };

    ghost inverse = { late_inside };

    ghost inverse_ok = { λ a _. late_inside-lateness_of a };
}

impl Copy for Late {}

impl Clone for Late {
    ghost is_clone = { λ late copy. copy ≡ late };

    fn clone(&self) -> Result<Late, AllocError> {
        Ok(*self)
    }
}

impl Late {
    ghost use Rattle.tcel_num.specs.Lateness.{Precedes, place_of};
    ghost use Rattle.tcel_demand.specs.LateSteps.{IsEarlier};

    /// Whether it comes first: by falling priority, then rising frame, then the plan's order of points.
    pub fn precedes(&self, other: &Late) -> bool
        ensures { IsTrue result ↔ Precedes (place_of self.now) (place_of other.now) }
    {
        if self.task != other.task {
            self.task < other.task
        } else if self.frame != other.frame {
            self.frame < other.frame
        } else {
            self.point < other.point
        }
    }

    /// The one that comes first of this one and another, where there is one.
    pub fn or_earlier(self, other: Option<Late>) -> Late
        ensures { IsEarlier other self result }
    {
        match other {
            None => self,
            Some(other) => { if self.precedes(&other) { self } else { other } }
        }
    }
}

/// The greatest response of a point over all frames, in ticks, and the first frame that has it.
#[derive(Clone, Copy, Debug, PartialEq, Eq)]
pub struct Worst {
    pub frame: u64,
    pub response: u64,
}
