use crate::body::Body;
use crate::var::Var;
use sqlite_items::Items;

/// A task split in two: the part that has all its events, and the rest, which follows it.
/// `vars` begins with the task's own variables; the copies and temporaries of the split follow. `words` counts the words
/// of all of them and one counter per loop.
#[derive(Debug, Drop)]
pub struct Parts {
    pub first: Body,
    pub rest: Body,
    pub vars: Items<Var>,
    pub words: u64,
}
