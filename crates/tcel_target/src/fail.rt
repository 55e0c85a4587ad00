ghost use Rattle.std.specs.Prelude.{◌≡◌};
ghost use Rattle.tcel_target.specs.declared.fail.TargetFail.TheVariants.{NoMemory as no_memory};

use crate::costs::CostKey;
use crate::key_text::KeyText;
use std::alloc::AllocError;

/// Why bytes are no target: the first of these, from above (docs/formats.md).
#[derive(Debug, Drop, PartialEq, Eq)]
pub enum TargetFail {
    /// The bytes are no TOML document.
    NotToml,
    /// The document has a key that no target has: the least one by bytes.
    Strange { key: KeyText },
    /// Each key before this one in the order of the keys has a cost, and this one doesn't stand there.
    Missing { key: CostKey },
    /// Each key before this one in the order of the keys has a cost, and this one has a value that is none.
    Range { key: CostKey },
    NoMemory,
}

impl From<AllocError> for TargetFail {
    ghost from_gives = { λ _ fail. fail ≡ no_memory };

    fn from(_error: AllocError) -> TargetFail {
        TargetFail::NoMemory
    }
}
