use std::marker::Model;

/// How a load ended. A load that ran out of memory has no outcome.
#[derive(Clone, Copy, Debug, PartialEq, Eq)]
pub enum Outcome {
    Done,
    /// The file can't be read.
    Fault,
    /// The file has more bytes than the limit.
    TooLong,
}

/// An entry of a shelf's list of loads: the name that was asked for, the limit in bytes, and how the
/// load ended. Contracts see the name as its bytes.
#[derive(Debug, Drop)]
pub struct Loaded {
    pub name: String,
    pub limit: usize,
    pub outcome: Outcome,
}

impl Model for Loaded {
    ghost use Rattle.std.specs.Prelude.{string_bytes};
    ghost use Rattle.tcel_io.specs.Load.{Load};

    ghost Value = { Load };

    ghost view = { λ l. record { name = string_bytes l.name; limit = l.limit; outcome = l.outcome } };
}
