ghost use Rattle.std.specs.Prelude.{◌≡◌, ◌<◌, ◌^◌, length, nat_le, position, IfSome, IfNone};
ghost use Rattle.tcel_num.specs.Schedule.{served};
ghost use Rattle.tcel_demand.specs.Sound.{AreSound};
ghost use Rattle.tcel_demand.specs.Ticks.{after, IsIdle, Serves};

use crate::plan::TaskPlan;
use crate::step::Step;
use std::marker::Model;

/// The demand schedule of plans, tick by tick (docs/analysis.md). Contracts see the plans and the ticks
/// so far.
#[derive(Drop)]
pub struct Demand<'a> {
    plans: &'a [TaskPlan],
    ticks: u64,
    // of each task: its frames that are done, the cycles done of the next one, and that one's release
    frames: [u64; 16],
    cycles: [u64; 16],
    starts: [u64; 16],
}

impl<'a> Model for Demand<'a> {
    ghost use Rattle.tcel_demand.specs.Ticks.{Schedule};

    ghost Value = { Schedule };

    ghost use Rattle.tcel_demand.specs.Standing.{schedule_of, IsStanding};

    ghost view = { schedule_of };

    ghost invariant = { IsStanding };
}

impl<'a> Demand<'a> {
    ghost use Rattle.tcel_demand.specs.Standing.{IsStep};

    /// The schedule before its first tick.
    pub fn new(plans: &'a [TaskPlan]) -> Demand<'a>
        requires { AreSound plans.now }
        ensures { result ≡ record { plans = plans.now; ticks = 0 } }
    {
        Demand {
            plans,
            ticks: 0,
            frames: [0; 16],
            cycles: [0; 16],
            starts: [0; 16],
        }
    }

    /// One tick: the task that it serves a cycle, or None where no task has any to do.
    pub fn tick(&mut self) -> Option<usize>
        requires { self.old.ticks < 10 ^ 12 }
        ensures after { self.new ≡ after self.old }
        ensures served { IfSome result (Serves self.old.plans self.old.ticks) }
        ensures idle { IfNone result (IsIdle self.old.plans self.old.ticks) }
    {
        match self.step() {
            Some(step) => Some(step.task),
            None => None,
        }
    }

    /// The cycles that the task was served so far.
    pub fn served(&self, task: usize) -> u64
        requires { task < length self.now.plans }
        ensures { result ≡ served self.now.plans self.now.ticks task }
    {
        let plans = self.plans;
        let plan = &plans[task];
        self.frames[task] * plan.total + self.cycles[task]
    }

    /// The ticks so far.
    pub fn now(&self) -> u64
        ensures { result ≡ self.now.ticks }
    {
        self.ticks
    }

    pub(crate) fn step(&mut self) -> Option<Step>
        requires { self.old.ticks < 10 ^ 12 }
        ensures after { self.new ≡ after self.old }
        ensures served { IfSome result (IsStep self.old.plans self.old.ticks) }
        ensures idle { IfNone result (IsIdle self.old.plans self.old.ticks) }
    {
        let found = first_started(&self.starts[..self.plans.len()], self.ticks);
        self.ticks += 1;
        let Some(task) = found else { return None };
        let plan = &self.plans[task];
        let step = Step {
            task,
            frame: self.frames[task],
            cycles: self.cycles[task] + 1,
            response: self.ticks - self.starts[task],
        };
        if step.cycles == plan.total {
            self.frames[task] += 1;
            self.cycles[task] = 0;
            self.starts[task] += plan.period;
        } else {
            self.cycles[task] = step.cycles;
        }
        Some(step)
    }
}

fn first_started(starts: &[u64], time: u64) -> Option<usize>
    ensures { result ≡ position (λ start. nat_le start time) starts.now }
{
    starts.iter().position(|start| *start <= time)
}
