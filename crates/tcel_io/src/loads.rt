ghost use Rattle.std.specs.Prelude.{◌≡◌, ◌++◌, ◌<◌, vec_len, vec_capacity, string_bytes, IfOk, IsErrOf, OnErr, OnOk};
ghost use Rattle.tcel_io.specs.Load.{entries_of};

use crate::loaded::{Loaded, Outcome};
use crate::shelf::LoadFail;
use std::alloc::Global;

/// Takes the memory for an entry of the list under this name, and hands out the entry's name.
pub(crate) fn reserve_entry(
    alloc: Global,
    loads: &mut Vec<Loaded>,
    name: &str,
) -> Result<String, LoadFail>
    ensures name { IfOk result (λ entry. string_bytes entry ≡ name.now) }
    ensures room { OnOk result (vec_len loads.new < vec_capacity loads.new) }
    ensures same { loads.new.items ≡ loads.old.items }
    ensures err { OnErr result (IsErrOf result LoadFail.NoMemory) }
{
    loads.reserve(1)?;
    Ok(String::from_str(alloc, name)?)
}

/// Adds the entry of a load with this answer. One that ran out of memory has none.
pub(crate) fn add_entry(
    loads: &mut Vec<Loaded>,
    name: String,
    limit: usize,
    answer: Result<(), LoadFail>,
)
    requires { vec_len loads.old < vec_capacity loads.old }
    ensures { loads.new.items ≡ loads.old.items ++ entries_of (string_bytes name) limit answer }
{
    let outcome = match answer {
        Ok(()) => Outcome::Done,
        Err(LoadFail::Fault) => Outcome::Fault,
        Err(LoadFail::TooLong) => Outcome::TooLong,
        Err(LoadFail::NoMemory) => return,
    };
    loads.push_reserved(Loaded {
        name,
        limit,
        outcome,
    });
}
