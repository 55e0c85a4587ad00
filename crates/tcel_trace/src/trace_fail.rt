ghost use Rattle.std.specs.Prelude.{◌≡◌};
ghost use Rattle.tcel_trace.specs.declared.trace_fail.TraceFail.TheVariants.{NoMemory as no_memory};

use std::alloc::AllocFailed;
use tcel_num::NoMemory;

/// Why bytes are refused as a trace.
#[derive(Clone, Copy, Debug, PartialEq, Eq)]
pub enum TraceFail {
    /// The first line without the form of a trace's line, counted from 1 (docs/formats.md).
    BadTrace { line: u32 },
    NoMemory,
}

impl From<NoMemory> for TraceFail {
    ghost from_gives = { λ _ fail. fail ≡ no_memory };

    fn from(_error: NoMemory) -> TraceFail {
        TraceFail::NoMemory
    }
}

impl<T: Drop> From<AllocFailed<T>> for TraceFail {
    ghost from_gives = { λ _ fail. fail ≡ no_memory };

    fn from(_error: AllocFailed<T>) -> TraceFail {
        TraceFail::NoMemory
    }
}
