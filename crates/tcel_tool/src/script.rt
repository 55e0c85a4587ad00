ghost use Rattle.std.specs.Prelude.{◌≡◌, ◌≤◌, IfErr, IfOk, Ok, length};
ghost use Rattle.tcel_num.specs.PortRow.{HaveDistinctNames};
ghost use Rattle.tcel_script.specs.Script.{script_of};
ghost use Rattle.tcel_tool.specs.Answer.{OrMemory};
ghost use Rattle.tcel_tool.specs.ScriptText.{RefusesLines};

use crate::status::Status;
use std::alloc::Global;
use tcel_num::PortRow;
use tcel_script::{Script, ScriptFail, read_script};

/// The most bytes of a script.
pub(crate) const SCRIPT_LIMIT: usize = 16_777_216;

/// What the bytes of a script say for these inputs.
pub(crate) fn script_for(alloc: Global, bytes: &[u8], ports: &[PortRow]) -> Result<Script, Status>
    requires short { length bytes.now ≤ 16777216 }
    requires distinct { HaveDistinctNames ports.now }
    ensures streams { IfOk result (λ streams. script_of ports.now bytes.now ≡ Ok streams) }
    ensures tasks { IfOk result (λ script. length script ≡ length ports.now) }
    ensures refusal { IfErr result (OrMemory (RefusesLines ports.now bytes.now)) }
{
    match read_script(alloc, bytes, ports) {
        Ok(script) => Ok(script),
        Err(ScriptFail::NoMemory) => Err(Status::NoMemory),
        Err(fail) => Err(Status::Script(fail)),
    }
}
