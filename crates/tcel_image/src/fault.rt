//! Why bytes are no image.

ghost use Rattle.std.specs.Prelude.{◌≡◌};
ghost use Rattle.tcel_image.specs.declared.fault.ReadError.TheVariants.{Memory};

use std::alloc::{AllocError, AllocFailed};

/// Why bytes are no image: the first fault from front to back. `at` counts bytes from the front.
#[derive(Clone, Copy, Debug, PartialEq, Eq)]
pub enum ImageFail {
    /// The first four bytes aren't `TCEL`, or there are fewer.
    BadMagic,
    /// A field needs more bytes than there are; `at` is their number.
    Short { at: usize },
    /// A field has a value that isn't allowed.
    BadField { at: usize },
    /// Bytes follow the last instruction.
    Extra { at: usize },
    NoMemory,
}

/// A fault, with the number of bytes from its place to the end.
#[derive(Clone, Copy, Debug, PartialEq, Eq)]
pub enum Fault {
    /// The front isn't `TCEL`.
    Magic,
    /// A field needs more bytes than there are.
    Cut,
    /// A field has a value that isn't allowed.
    Value { left: usize },
    /// Bytes follow the last instruction.
    Surplus { left: usize },
}

/// Why a reader gave no value: memory ran out, or the bytes have a fault.
#[derive(Debug, Drop)]
pub enum ReadError {
    Memory,
    Fault(Fault),
}

impl From<AllocError> for ReadError {
    ghost from_gives = { λ _ e. e ≡ Memory };

    fn from(_e: AllocError) -> ReadError {
        ReadError::Memory
    }
}

impl<T: Drop> From<AllocFailed<T>> for ReadError {
    ghost from_gives = { λ _ e. e ≡ Memory };

    fn from(_e: AllocFailed<T>) -> ReadError {
        ReadError::Memory
    }
}
