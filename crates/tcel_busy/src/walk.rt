ghost use Rattle.std.specs.Prelude.{◌≡◌, ◌<◌, ℕ, length, IfSome, IfNone};
ghost use Rattle.tcel_demand.specs.Sound.{Fit};
ghost use Rattle.tcel_busy.specs.Stretches.{IsNextStretch, IsOver};

use crate::gap::pass_releases;
use crate::stretch::Stretch;
use std::marker::Model;
use tcel_demand::TaskPlan;

/// A walk through the frames of a task in the busy period that starts at time 0, from one release of a
/// higher task to the next (docs/analysis.md).
#[derive(Drop)]
pub(crate) struct Walk<'a> {
    plans: &'a [TaskPlan],
    task: usize,
    // the frame, its release, and how many of its cycles were passed
    frame: u64,
    release: u64,
    from: u64,
    // cycle c of the frame is done at release + delay + c, up to this time
    delay: u64,
    until: u64,
    // of each higher task its next release
    next: [u64; 16],
    over: bool,
}

impl<'a> Model for Walk<'a> {
    ghost use Rattle.tcel_busy.specs.Stretches.{Position};

    ghost Value = { Position };

    ghost use Rattle.tcel_busy.specs.Walking.{position_of, IsWalking};

    ghost view = { position_of };

    ghost invariant = { IsWalking };
}

impl<'a> Walk<'a> {
    /// The walk before its first stretch.
    pub(crate) fn new(plans: &'a [TaskPlan], task: usize) -> Walk<'a>
        requires fit { (hyper : ℕ) × Fit plans.now hyper }
        requires in_range { task < length plans.now }
        ensures plans { result.plans ≡ plans.now }
        ensures task { result.task ≡ task }
        ensures frame { result.frame ≡ 0 }
        ensures from { result.from ≡ 0 }
    {
        let mut next = [0; 16];
        let gap = pass_releases(&plans[..task], &mut next, 0);
        Walk {
            plans,
            task,
            frame: 0,
            release: 0,
            from: 0,
            delay: gap.cycles,
            until: gap.until,
            next,
            over: false,
        }
    }

    /// The next stretch, or None behind the end of the busy period.
    pub(crate) fn next(&mut self) -> Option<Stretch>
        ensures some { IfSome result (IsNextStretch self.old self.new) }
        ensures none { IfNone result (IsOver self.old) }
    {
        if self.over {
            return None;
        }
        let plans = self.plans;
        let plan = &plans[self.task];
        let reach = self.until.saturating_sub(self.release + self.delay);
        let stretch = Stretch {
            frame: self.frame,
            from: self.from,
            to: reach.min(plan.total).max(self.from),
            delay: self.delay,
        };
        if stretch.to == plan.total {
            let done = self.delay + plan.total;
            self.over = done <= plan.period;
            self.delay = done.saturating_sub(plan.period);
            self.frame += 1;
            self.release += plan.period;
            self.from = 0;
        } else {
            let gap = pass_releases(&plans[..self.task], &mut self.next, self.until);
            self.delay += gap.cycles;
            self.until = gap.until;
            self.from = stretch.to;
        }
        Some(stretch)
    }
}
