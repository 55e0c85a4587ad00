ghost use Rattle.std.specs.Prelude.{◌≤◌, length};
ghost use Rattle.tcel_trace.specs.TraceForm.{ReadsTrace};

use crate::cut::cut;
use crate::read_line::line_in;
use crate::trace_fail::TraceFail;
use crate::trace_line::TraceLine;
use std::alloc::Global;

/// The lines of a trace (docs/formats.md), in order, or the first of them without the form of one, counted from
/// 1; NoMemory where an allocation fails. The bytes are at most 16,777,216; no bytes are a trace of no lines.
pub fn read_trace(alloc: Global, bytes: &[u8]) -> Result<Vec<TraceLine>, TraceFail>
    requires { length bytes.now ≤ 16777216 }
    ensures { ReadsTrace result bytes.now }
{
    let mut lines = Vec::new(alloc);
    let mut rest = bytes;
    let mut number = 0;
    while !rest.is_empty() {
        number += 1;
        let Some((text, more)) = cut(rest, b'\n') else {
            return Err(TraceFail::BadTrace { line: number });
        };
        let Some(line) = line_in(alloc, text)? else {
            return Err(TraceFail::BadTrace { line: number });
        };
        lines.push(line)?;
        rest = more;
    }
    Ok(lines)
}
