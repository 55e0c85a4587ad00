/// What a judge says of a trace.
#[derive(Clone, Copy, Debug, PartialEq, Eq)]
pub enum Verdict {
    Yes,
    No(Breach),
}

/// The first thing that is wrong with a trace. Lines count from 1, frames from 0; tasks have their places in the
/// set, the highest in priority first. On one line the earlier of these comes first.
#[derive(Clone, Copy, Debug, PartialEq, Eq)]
pub enum Breach {
    /// The time is not above that of the line before.
    Order { line: u64 },
    /// No task has the name.
    Unknown { line: u64 },
    /// It is not the next entry of its task.
    Entry { line: u64 },
    /// An event comes before its window.
    Early { line: u64 },
    /// An event comes after its window, or `first` after the frame's deadline.
    Overdue { line: u64 },
    /// All lines are right, but an entry that is due by the last tick is not there.
    Missing { task: u32, frame: u64, what: Due },
}

/// An entry of a frame that is missing; events count from 0.
#[derive(Clone, Copy, Debug, PartialEq, Eq)]
pub enum Due {
    Event { number: u64 },
    First,
    End,
}
