ghost use Rattle.std.specs.Prelude.{◌≡◌};
ghost use Rattle.tcel_driver.specs.declared.refused.Refused.TheVariants.{NoMemory as no_memory};

use std::alloc::{AllocError, AllocFailed};
use tcel_demand::Late;
use tcel_num::NoMemory;

/// Why a set isn't compiled, in the order in which it is asked. Tasks go by their numbers
/// (docs/analysis.md).
#[derive(Clone, Copy, Debug, PartialEq, Eq)]
pub enum Refused {
    /// The first task whose two parts need more than 65,536 words.
    TooManyCells { task: usize, words: u64 },
    /// The first task with more than 10^9 cycles a frame, as a whole or sliced.
    TooDear { task: usize, cycles: u64 },
    /// The first task with which the least common multiple of the periods is above 10^12 ticks.
    HyperTooLong { task: usize },
    /// The frames in a hyperperiod, above 1,000,000.
    TooManyFrames { frames: u64 },
    /// The cycles that all tasks, sliced, ask for in a hyperperiod, and its ticks: no number of sliced
    /// tasks fits.
    Overload { demand: u64, hyper: u64 },
    /// The first late point with all tasks sliced: no number of sliced tasks fits.
    Late(Late),
    NoMemory,
}

impl From<NoMemory> for Refused {
    ghost from_gives = { λ _ refused. refused ≡ no_memory };

    fn from(_error: NoMemory) -> Refused {
        Refused::NoMemory
    }
}

impl From<AllocError> for Refused {
    ghost from_gives = { λ _ refused. refused ≡ no_memory };

    fn from(_error: AllocError) -> Refused {
        Refused::NoMemory
    }
}

impl<T: Drop> From<AllocFailed<T>> for Refused {
    ghost from_gives = { λ _ refused. refused ≡ no_memory };

    fn from(_error: AllocFailed<T>) -> Refused {
        Refused::NoMemory
    }
}
