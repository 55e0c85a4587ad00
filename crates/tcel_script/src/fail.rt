ghost use Rattle.std.specs.Prelude.{◌≡◌};
ghost use Rattle.tcel_script.specs.declared.fail.ScriptFail.TheVariants.{NoMemory as no_memory};

use tcel_num::NoMemory;

/// Why a script is refused: its first faulty line, counted from 1 (docs/formats.md). On one line the
/// earlier of these comes first.
#[derive(Clone, Copy, Debug, PartialEq, Eq)]
pub enum ScriptFail {
    /// The line has only one word.
    BadLine { line: u32 },
    /// There is no such task, or it has no such input.
    NoPort { line: u32 },
    /// An earlier line is for the same input.
    PortTwice { line: u32 },
    /// A value is no number of 64 bits.
    Number { line: u32 },
    NoMemory,
}

impl From<NoMemory> for ScriptFail {
    ghost from_gives = { λ _ fail. fail ≡ no_memory };

    fn from(_error: NoMemory) -> ScriptFail {
        ScriptFail::NoMemory
    }
}
