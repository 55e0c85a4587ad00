ghost use Rattle.std.specs.Prelude.{◌≡◌};
ghost use Rattle.tcel_link.specs.declared.fail.LinkFail.TheVariants.{NoMemory as no_memory};

use tcel_num::NoMemory;

/// Why a text of links is refused: its first faulty line, counted from 1. On one line the earlier of these comes first.
#[derive(Clone, Copy, Debug, PartialEq, Eq)]
pub enum LinkFail {
    /// The line hasn't four words.
    BadLine { line: u32 },
    /// There is no such producer, or it has no such output.
    NoOutput { line: u32 },
    /// There is no such consumer, or it has no such input.
    NoInput { line: u32 },
    /// An earlier line leads to the same input.
    InputTwice { line: u32 },
    /// A receive from the input stands inside a loop.
    InLoop { line: u32 },
    NoMemory,
}

impl From<NoMemory> for LinkFail {
    ghost from_gives = { λ _ fail. fail ≡ no_memory };

    fn from(_error: NoMemory) -> LinkFail {
        LinkFail::NoMemory
    }
}
