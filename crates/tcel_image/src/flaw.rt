/// A flaw of an image: its kind, the number of the task, and the place in its code (docs/formats.md).
#[derive(Clone, Copy, Debug, PartialEq, Eq)]
pub struct Flaw {
    pub kind: FlawKind,
    pub task: u32,
    pub pc: u32,
}

/// The kinds of flaws, in the order in which one place is judged.
#[derive(Clone, Copy, Debug, PartialEq, Eq)]
pub enum FlawKind {
    /// The period is 0 or above 10^9 ticks.
    BadPeriod,
    /// The task has an earlier task's name, or two names within it are one.
    SameName,
    /// A target is no place of the code.
    JumpOut,
    /// A cell or a range of cells passes the task's cells.
    BadCell,
    /// The port is none of the task's.
    BadPort,
    /// The depth of the stack does not fit the instruction or what comes next.
    BadDepth,
    /// The last instruction is neither a jump nor an end.
    FallsOff,
}
