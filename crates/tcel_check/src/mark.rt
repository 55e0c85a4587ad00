ghost use Rattle.std.specs.Prelude.{◌≡◌};
ghost use Rattle.tcel_check.specs.Marks.{precedes, rank};

use crate::fail::{CheckKind, LimitKind};
use tcel_num::At;

/// A row of the table of faults and limits (docs/language.md).
#[derive(Clone, Copy, Debug, PartialEq, Eq)]
pub enum Row {
    Limit(LimitKind),
    Fault(CheckKind),
}

impl Row {
    /// The number of the row, from 0.
    fn rank(self) -> u8
        ensures { result ≡ rank self }
    {
        match self {
            Row::Limit(LimitKind::Tasks) => 0,
            Row::Limit(LimitKind::Variables) => 1,
            Row::Limit(LimitKind::Words) => 2,
            Row::Limit(LimitKind::Nodes) => 3,
            Row::Limit(LimitKind::Windows) => 4,
            Row::Fault(CheckKind::Twice) => 5,
            Row::Fault(CheckKind::Unknown) => 6,
            Row::Fault(CheckKind::WrongType) => 7,
            Row::Fault(CheckKind::NotAPort) => 8,
            Row::Fault(CheckKind::WindowInLoop) => 9,
            Row::Fault(CheckKind::LoopDepth) => 10,
            Row::Fault(CheckKind::SamePriority) => 11,
            Row::Fault(CheckKind::BadBound) => 12,
        }
    }
}

/// A fault or limit of a program, at its place.
#[derive(Clone, Copy, Debug, PartialEq, Eq)]
pub struct Mark {
    pub row: Row,
    pub at: At,
}

impl Mark {
    /// Whether it is answered before the other one: it has the earlier place, or at one place the earlier row.
    pub fn precedes(&self, other: &Mark) -> bool
        ensures { result ≡ precedes self.now other.now }
    {
        let (at, than) = (self.at, other.at);
        if at.line != than.line {
            return at.line < than.line;
        }
        if at.column != than.column {
            return at.column < than.column;
        }
        self.row.rank() < other.row.rank()
    }
}
