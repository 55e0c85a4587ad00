ghost use Rattle.std.specs.Prelude.{◌≡◌, IfOk};
ghost use Rattle.tcel_trace.specs.TraceForm.{AreStates};

use sqlite_items::Items;
use std::alloc::Global;
use std::marker::Model;
use tcel_num::NoMemory;

/// The names and values of a task's states as a trace shows them (docs/formats.md): any number of
/// ` NAME=VALUE`. Contracts see it as its bytes.
#[derive(Debug, Drop)]
pub struct StateText {
    bytes: Items<u8>,
}

impl Model for StateText {
    ghost use Rattle.std.specs.Prelude.{ℕ, List};

    ghost Value = { List ℕ };

    ghost use Rattle.tcel_trace.specs.TraceForm.{AreStates};

    ghost view = { λ text. text.bytes };

    ghost invariant = { λ text. AreStates text.bytes };
}

impl StateText {
    pub(crate) fn new(alloc: Global, bytes: &[u8]) -> Result<StateText, NoMemory>
        requires { AreStates bytes.now }
        ensures { IfOk result (λ text. text ≡ bytes.now) }
    {
        Ok(StateText {
            bytes: Items::from_slice(alloc, bytes)?,
        })
    }

    /// Its bytes, those of a line behind `end`.
    pub fn bytes(&self) -> &[u8]
        ensures value { result.now ≡ self.now }
        ensures valid { AreStates self.now }
    {
        self.bytes.as_slice()
    }
}
