use crate::name::Name;
use sqlite_items::Items;

/// A task's name and the names of its inputs, in order of declaration.
#[derive(Debug, Drop)]
pub struct PortRow {
    pub task: Name,
    pub inputs: Items<Name>,
}
