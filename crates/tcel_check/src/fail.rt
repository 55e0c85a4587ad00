use tcel_num::At;

/// Why a program isn't compiled. Each answer comes exactly where docs/language.md says, at its place.
#[derive(Clone, Copy, Debug, PartialEq, Eq)]
pub enum CheckFail {
    Fault { kind: CheckKind, at: At },
    Limit { kind: LimitKind, at: At },
    NoMemory,
}

/// The faults of a program that follows the grammar (docs/language.md).
#[derive(Clone, Copy, Debug, PartialEq, Eq)]
pub enum CheckKind {
    Twice,
    Unknown,
    WrongType,
    NotAPort,
    WindowInLoop,
    LoopDepth,
    SamePriority,
    BadBound,
}

/// The limits that have a place in a program: 16 tasks; in each task 256 names, 4,096 words, 4,000 nodes and 31 windows.
#[derive(Clone, Copy, Debug, PartialEq, Eq)]
pub enum LimitKind {
    Tasks,
    Variables,
    Words,
    Nodes,
    Windows,
}
