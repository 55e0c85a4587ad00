ghost use Rattle.std.specs.Prelude.{◌≡◌, ◌==◌};
ghost use Rattle.tcel_core.specs.Evaluation.{frame_bounds, last_time, narrowed};
ghost use Rattle.tcel_core.specs.Windows.{lesser};

/// The bounds of events' times inside some `do` blocks, in ticks after the release. The latest time is `lead` for an event
/// that comes first in the innermost block, and `latest` for any other.
#[derive(Clone, Copy)]
pub(crate) struct Bounds {
    pub(crate) earliest: u64,
    pub(crate) latest: u64,
    pub(crate) lead: u64,
    /// How many events there were when the innermost block was entered.
    pub(crate) entered: usize,
}

impl Bounds {
    /// The bounds of a frame, which is entered behind so many events.
    pub(crate) fn of_frame(deadline: u64, entered: usize) -> Bounds
        ensures { result ≡ frame_bounds deadline entered }
    {
        Bounds {
            earliest: 0,
            latest: deadline,
            lead: deadline,
            entered,
        }
    }

    /// The latest time of the next event, where there are so many.
    pub(crate) fn last_time(&self, events: usize) -> u64
        ensures { result ≡ last_time self.now (events == self.now.entered) }
    {
        if events == self.entered {
            self.lead
        } else {
            self.latest
        }
    }

    /// The bounds in a block that is entered behind so many events.
    pub(crate) fn narrowed(
        &self,
        after: Option<u64>,
        before: Option<u64>,
        within: Option<u64>,
        events: usize,
    ) -> Bounds
        ensures { result ≡ narrowed (record { after = after; before = before; within = within }) events self.now }
    {
        Bounds {
            earliest: self.earliest.max(after.unwrap_or(0)),
            latest: lesser(within, self.latest),
            lead: lesser(within, lesser(before, self.last_time(events))),
            entered: events,
        }
    }
}

/// The lesser of the two, where the first is there.
fn lesser(bound: Option<u64>, time: u64) -> u64
    ensures { result ≡ lesser bound time }
{
    match bound {
        Some(bound) => bound.min(time),
        None => time,
    }
}
