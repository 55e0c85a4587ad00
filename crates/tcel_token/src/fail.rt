ghost use Rattle.std.specs.Prelude.{◌≡◌};
ghost use Rattle.tcel_token.specs.declared.fail.LexFail.TheVariants.{NoMemory as no_memory};

use tcel_num::{At, NoMemory};

/// Why a text has no tokens: its first fault (docs/language.md).
#[derive(Clone, Copy, Debug, PartialEq, Eq)]
pub enum LexFail {
    /// A byte between tokens that begins none.
    BadByte { at: At },
    /// A number above 9223372036854775807, at its first digit.
    BadNumber { at: At },
    /// A word of more than 32 bytes, at its first byte.
    NameTooLong { at: At },
    NoMemory,
}

impl From<NoMemory> for LexFail {
    ghost from_gives = { λ _ fail. fail ≡ no_memory };

    fn from(_error: NoMemory) -> LexFail {
        LexFail::NoMemory
    }
}
