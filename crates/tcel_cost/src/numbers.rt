ghost use Rattle.std.specs.Prelude.{◌≡◌};
ghost use Rattle.tcel_cost.specs.CostSteps.{either, entered, held, joined, passed, rounds, shown};
ghost use Rattle.tcel_cost.specs.Rooms.{CanJoin, CanRepeat, HasRoom};
ghost use Rattle.tcel_cost.specs.Walks.{held_entry};

use crate::counts::{both, from_start, greater, held_count, quiet_rounds, times, where_some};

/// What a body costs over all walks through it, in cycles from the frame's start: the greatest counts at which a walk ends,
/// has its first event, has its last one, and ends without an event. The last three are absent where no walk has them
/// (docs/analysis.md).
#[derive(Clone, Copy, Debug, PartialEq, Eq)]
pub struct Cost {
    pub total: u64,
    pub first: Option<u64>,
    pub last: Option<u64>,
    pub quiet: Option<u64>,
}

/// Before anything was walked, from an entry count.
pub(crate) fn entered(entry: u64) -> Cost
    ensures { result ≡ entered entry }
{
    Cost {
        total: entry,
        first: None,
        last: None,
        quiet: Some(entry),
    }
}

/// With so many cycles more, without an event.
pub(crate) fn passed(before: Cost, cycles: u64) -> Cost
    requires { HasRoom before cycles }
    ensures { result ≡ passed cycles before }
{
    Cost {
        total: cycles + before.total,
        first: before.first,
        last: before.last,
        quiet: from_start(cycles, before.quiet),
    }
}

/// With so many cycles more, and an event at their end.
pub(crate) fn shown(before: Cost, cycles: u64) -> Cost
    requires { HasRoom before cycles }
    ensures { result ≡ shown cycles before }
{
    let total = cycles + before.total;
    Cost {
        total,
        first: greater(before.first, from_start(cycles, before.quiet)),
        last: Some(total),
        quiet: None,
    }
}

/// Behind a hold up to this bound, where there is one.
pub(crate) fn held(before: Cost, hold: Option<u64>) -> Cost
    requires { HasRoom before (held_entry hold 0) }
    ensures { result ≡ held hold before }
{
    let Some(bound) = hold else {
        return before;
    };
    Cost {
        total: (before.total + 1).max(bound),
        first: before.first,
        last: before.last,
        quiet: held_count(bound, before.quiet),
    }
}

/// The greater number of two costs, each apart.
pub(crate) fn either(one: Cost, other: Cost) -> Cost
    ensures { result ≡ either one other }
{
    Cost {
        total: one.total.max(other.total),
        first: greater(one.first, other.first),
        last: greater(one.last, other.last),
        quiet: greater(one.quiet, other.quiet),
    }
}

/// With what costs this from 0, and from each entry as much more.
pub(crate) fn joined(before: Cost, own: Cost) -> Cost
    requires { CanJoin before own }
    ensures { result ≡ joined before own }
{
    Cost {
        total: before.total + own.total,
        first: greater(before.first, both(before.quiet, own.first)),
        last: greater(
            from_start(before.total, own.last),
            where_some(own.quiet, before.last),
        ),
        quiet: both(before.quiet, own.quiet),
    }
}

/// So many rounds, at least one, of which one costs this from 0.
pub(crate) fn rounds(turns: u64, round: Cost) -> Cost
    requires { CanRepeat turns round }
    ensures { result ≡ rounds turns round }
{
    let before = turns.saturating_sub(1);
    Cost {
        total: turns * round.total,
        first: from_start(quiet_rounds(before, round.quiet), round.first),
        last: from_start(before * round.total, round.last),
        quiet: times(turns, round.quiet),
    }
}
