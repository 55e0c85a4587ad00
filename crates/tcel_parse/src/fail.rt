ghost use Rattle.std.specs.Prelude.{◌≡◌};
ghost use Rattle.tcel_parse.specs.declared.fail.Stop.TheVariants.{NoMemory as stop_memory};

use std::alloc::{AllocError, AllocFailed};
use tcel_grammar::Deep;
use tcel_num::At;

/// Why a list of tokens has no tree: its first fault (docs/language.md).
#[derive(Clone, Copy, Debug, PartialEq, Eq)]
pub enum ParseFail {
    /// The first token such that no program begins with the tokens up to it, or the text's end where one might go on.
    Syntax { at: At },
    /// The first token that is the 33rd unclosed bracket, or the 65th operator of an outermost expression.
    TooDeep { at: At, what: Deep },
    NoMemory,
}

/// Why parsing stops at the token where the parser stands.
#[derive(Clone, Copy, Debug, PartialEq, Eq)]
pub(crate) enum Stop {
    Syntax,
    TooDeep(Deep),
    NoMemory,
}

impl From<AllocError> for Stop {
    ghost from_gives = { λ _ stop. stop ≡ stop_memory };

    fn from(_error: AllocError) -> Stop {
        Stop::NoMemory
    }
}

impl<T: Drop> From<AllocFailed<T>> for Stop {
    ghost from_gives = { λ _ stop. stop ≡ stop_memory };

    fn from(_error: AllocFailed<T>) -> Stop {
        Stop::NoMemory
    }
}
