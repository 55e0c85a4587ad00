ghost use Rattle.std.specs.Prelude.{◌≡◌, ◌≤◌, length, IfOk};
ghost use Rattle.tcel_num.specs.PortRow.{HaveDistinctNames};
ghost use Rattle.tcel_script.specs.Script.{HasStreams, Reads, script_of};

use crate::fail::ScriptFail;
use crate::line::next_line;
use crate::row::{empty_rows, take_line};
use crate::script::Script;
use std::alloc::Global;
use tcel_num::PortRow;

/// The streams of a script for these ports, or its first faulty line (docs/formats.md). It has at most
/// 16,777,216 bytes, and no two tasks of the ports have one name, nor two inputs of one task.
pub fn read_script(alloc: Global, bytes: &[u8], ports: &[PortRow]) -> Result<Script, ScriptFail>
    requires short { length bytes.now ≤ 16777216 }
    requires distinct { HaveDistinctNames ports.now }
    ensures read { Reads result (script_of ports.now bytes.now) }
    ensures tasks { IfOk result (λ script. length script ≡ length ports.now) }
    ensures streams { IfOk result (HasStreams ports.now) }
{
    let mut rows = empty_rows(alloc, ports)?;
    let mut rest = bytes;
    let mut number = 0;
    while !rest.is_empty() {
        let (line, more) = next_line(rest);
        number += 1;
        take_line(alloc, line, number, ports, &mut rows)?;
        rest = more;
    }
    Ok(Script::new(rows))
}
