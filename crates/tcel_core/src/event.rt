/// An event of a frame: a value taken from an input or put to an output, and the earliest and the latest time that it
/// may have, in ticks after the frame's release (docs/language.md).
#[derive(Clone, Copy, Debug, PartialEq, Eq)]
pub struct Event {
    /// Its number among the task's inputs or among its outputs, from 0.
    pub port: u32,
    pub kind: EventKind,
    pub value: i64,
    pub earliest: u64,
    pub latest: u64,
}

/// Whether the value came from an input or went to an output.
#[derive(Clone, Copy, Debug, PartialEq, Eq)]
pub enum EventKind {
    Receive,
    Send,
}
