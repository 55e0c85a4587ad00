ghost use Rattle.std.specs.Prelude.{◌≡◌, false, slice_index_or};

use sqlite_items::Items;

/// A set of items of a task, by their numbers.
#[derive(Debug, Drop)]
pub struct ItemSet {
    /// One truth value per item.
    pub list: Items<bool>,
}

impl ItemSet {
    /// Whether the item is in the set, and false past its end.
    pub fn has(&self, item: u32) -> bool
        ensures { result ≡ slice_index_or self.now.list item false }
    {
        self.list.get(item as usize).copied().unwrap_or(false)
    }
}
