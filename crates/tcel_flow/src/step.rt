use tcel_core::Row;

/// A step of a body's shape, in text order (docs/slicing.md). A `do` gives the steps of its body.
#[derive(Clone, Copy, Debug)]
pub enum Step {
    /// An item: its number, the variables that it reads and writes, and whether a send or a receive stands in it.
    Item {
        id: u32,
        reads: Row,
        writes: Row,
        event: bool,
    },
    /// The start of an `if`: its number, and the variables that its test reads.
    Open {
        test: u32,
        reads: Row,
    },
    /// The end of its first branch.
    Middle,
    /// Its end.
    Close,
}
