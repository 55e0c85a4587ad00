ghost use Rattle.std.specs.Prelude.{◌≡◌, nat_eq, IfOk};
ghost use Rattle.std.specs.Cmp.Lexicographic.{pointwise, nat_list_eq_equiv};
ghost use Rattle.std.specs.Cmp.{partial_equiv_from_equiv};

use sqlite_items::Items;
use std::alloc::{AllocError, Global};
use std::marker::Model;

/// A key that no target has, as it stands in the document. Contracts see it as its bytes.
#[derive(Debug, Drop)]
pub struct KeyText {
    text: Items<u8>,
}

impl Model for KeyText {
    ghost use Rattle.std.specs.Prelude.{ℕ, List};

    ghost Value = { List ℕ };

    ghost view = { λ key. key.text };
}

impl KeyText {
    pub(crate) fn new(alloc: Global, bytes: &[u8]) -> Result<KeyText, AllocError>
        ensures { IfOk result (λ key. key ≡ bytes.now) }
    {
        Ok(KeyText {
            text: Items::from_slice(alloc, bytes)?,
        })
    }

    /// Its bytes, in UTF-8.
    pub fn bytes(&self) -> &[u8]
        ensures { result.now ≡ self.now }
    {
        self.text.as_slice()
    }
}

impl PartialEq for KeyText {
    ghost eq = { pointwise nat_eq };

    ghost laws = { partial_equiv_from_equiv nat_list_eq_equiv };

    fn eq(&self, other: &KeyText) -> bool {
        self.bytes() == other.bytes()
    }
}

impl Eq for KeyText {
    ghost laws = { nat_list_eq_equiv };
}
