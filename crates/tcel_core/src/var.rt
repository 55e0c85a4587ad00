use tcel_num::Name;

/// A variable of a task, or a copy or temporary that slicing adds, which has no name.
/// A scalar is one word, an array its length. `first` is the first value of a scalar state variable, else 0.
#[derive(Clone, Copy, Debug)]
pub struct Var {
    pub name: Option<Name>,
    pub kind: VarKind,
    pub keep: Keep,
    pub first: i64,
}

/// What a variable holds: a scalar one word, an array one for each element.
#[derive(Clone, Copy, Debug, PartialEq, Eq)]
pub enum VarKind {
    /// Any number of 64 bits.
    Int,
    /// 0 or 1.
    Bool,
    /// An array of ints, of 1 to 4,096 words.
    Array(u32),
}

/// How long a variable keeps its value: from frame to frame, or from the start of a frame, where it is 0, to its end.
/// The variables of a task stand in this order.
#[derive(Clone, Copy, Debug, PartialEq, Eq)]
pub enum Keep {
    State,
    Local,
    /// What slicing adds; it lives as long as a local.
    Temp,
}
