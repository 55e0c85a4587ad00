use crate::state_text::StateText;
use tcel_num::Name;

/// A line of a trace (docs/formats.md): when an entry came, in ticks, of which task and which of its
/// frames, counted from 0, and what it shows.
#[derive(Debug, Drop)]
pub struct TraceLine {
    pub time: u64,
    pub task: Name,
    pub frame: u64,
    pub what: LineWhat,
}

/// What a line of a trace shows.
#[derive(Debug, Drop)]
pub enum LineWhat {
    Receive { port: Name, value: i64 },
    Send { port: Name, value: i64 },
    /// The end of a frame's first part.
    First,
    /// The end of a frame.
    End { state: StateText },
}
