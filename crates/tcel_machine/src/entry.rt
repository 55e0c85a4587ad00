/// An entry of a trace: `time` is the end of the tick that made it, `frame` counts the task's frames
/// from 0 (docs/machine.md).
#[derive(Clone, Copy, Debug, PartialEq, Eq)]
pub struct Entry {
    pub time: u64,
    /// The task's number in the image, from 0.
    pub task: u32,
    pub frame: u64,
    pub what: What,
}

/// What an entry shows.
#[derive(Clone, Copy, Debug, PartialEq, Eq)]
pub enum What {
    /// The value that an input gave.
    Receive { port: u32, value: i64 },
    /// The value that went out.
    Send { port: u32, value: i64 },
    /// The first part of the frame is done.
    First,
    /// The frame is done; `Machine::state` is the state that it shows.
    End,
}
