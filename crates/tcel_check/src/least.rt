ghost use Rattle.std.specs.Prelude.{◌≡◌};
ghost use Rattle.tcel_check.specs.Rows.{when};
ghost use Rattle.tcel_check.specs.Least.{kept, kept_all};

use crate::mark::{Mark, Row};
use tcel_num::At;

/// The first of two marks.
fn first_of(least: Option<Mark>, mark: Mark) -> Option<Mark>
    ensures { result ≡ kept least mark }
{
    match least {
        Some(first) if !mark.precedes(&first) => Some(first),
        _ => Some(mark),
    }
}

/// Keeps the first mark so far, where one is found here.
pub fn keep(least: &mut Option<Mark>, found: bool, row: Row, at: At)
    ensures { least.new ≡ kept_all least.old (when found (record { row = row; at = at })) }
{
    if found {
        *least = first_of(*least, Mark { row, at });
    }
}
