use sqlite_items::Items;
use tcel_num::{Name, Op};
use tcel_target::Costs;

/// What a machine runs: a cost table and its tasks, the highest in priority first (docs/formats.md).
#[derive(Debug, Drop)]
pub struct Image {
    pub costs: Costs,
    pub tasks: Items<ImageTask>,
}

/// A task of an image. `period` is in ticks; `cells` counts its words, of which the states are the first.
#[derive(Debug, Drop)]
pub struct ImageTask {
    pub name: Name,
    pub period: u32,
    /// Whether its frames do a first part, with all their events, and then the rest.
    pub sliced: bool,
    pub inputs: Items<Name>,
    pub outputs: Items<Name>,
    pub states: Items<ImageState>,
    pub cells: u32,
    pub code: Items<Line>,
}

/// A state variable: how many words it has, and their first values.
#[derive(Debug, Drop)]
pub struct ImageState {
    pub name: Name,
    pub kind: StateKind,
    pub words: u32,
    pub first: Items<i64>,
}

/// How a state is shown in a trace.
#[derive(Clone, Copy, Debug, PartialEq, Eq)]
pub enum StateKind {
    Int,
    Bool,
    Array,
}

/// An instruction with the depth of the stack before it, in words.
#[derive(Clone, Copy, Debug, PartialEq, Eq)]
pub struct Line {
    pub instr: Instr,
    pub depth: u16,
}

/// The instructions, with their fields in the order a, b, c (docs/machine.md).
#[derive(Clone, Copy, Debug, PartialEq, Eq)]
pub enum Instr {
    /// Pushes the value.
    Const(i64),
    /// Pushes the cell.
    Get(u32),
    /// Pops a value into the cell.
    Put(u32),
    /// First cell and length of an array: pops an index, pushes the element.
    GetAt(u32, u32),
    /// First cell and length of an array: pops a value, then an index.
    PutAt(u32, u32),
    /// Applies the operator to the stack's top.
    Arith(Op),
    /// Goes on at the target.
    Jump(u32),
    /// Pops a value, and goes on at the target where it is 0.
    Branch(u32),
    /// Cell, turns and target: adds 1 to the cell, and goes on at the target where it is below the turns.
    Loop(u32, u32, u32),
    /// Input and cell: the input's next value goes into the cell.
    Receive(u32, u32),
    /// Output: pops the value that goes out.
    Send(u32),
    /// Waits until this many ticks after the frame's release.
    Hold(u32),
    /// From, to and length of a copy, in cells.
    Copy(u32, u32, u32),
    /// The first part of the frame is done.
    Mark,
    /// The frame is done.
    End,
}
