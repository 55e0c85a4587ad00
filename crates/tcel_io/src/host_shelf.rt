ghost use Rattle.std.specs.Prelude.{◌≡◌, ◌<◌, ◌≤◌, ◌+◌, ◌++◌, [], length, vec_len, IsErrOf, IfOk, IfSome, OnOk, OnErr, None};
ghost use Rattle.std.specs.Io.{StartsWith, appended_bytes};
ghost use Rattle.std.specs.Io.KnownBytes.{Consumes, IsAtEnd};
ghost use Rattle.tcel_io.specs.Shelf.{Appends};

use crate::loaded::Loaded;
use crate::loads::{add_entry, reserve_entry};
use crate::shelf::{LoadFail, Shelf};
use std::alloc::Global;
use std::fs;
use std::io::Read;
use std::marker::Model;
use std::rt::Files;

/// The most bytes that one read asks for.
const BLOCK: usize = 8192;

/// A shelf of the host's files, each under its path. It tells no bytes. Contracts see it as its list of
/// loads.
#[derive(Drop)]
pub struct HostShelf {
    rt: HostRuntime,
    alloc: Global,
    loads: Vec<Loaded>,
}

impl Model for HostShelf {
    ghost use Rattle.std.specs.Prelude.{List};
    ghost use Rattle.tcel_io.specs.Load.{Load};

    ghost Value = { List Load };

    ghost view = { λ s. s.loads.items };
}

impl HostShelf {
    /// A shelf over the files that `main` was handed. It takes no memory. `alloc` serves its list of loads.
    pub fn new(rt: HostRuntime, alloc: Global) -> HostShelf
        ensures { result ≡ [] }
    {
        HostShelf {
            rt,
            alloc,
            loads: Vec::new(alloc),
        }
    }
}

impl Shelf for HostShelf {
    ghost use Rattle.std.specs.Prelude.{None};

    ghost seen = { λ shelf. record { told = λ name. None; loads = shelf } };

    fn load(&mut self, name: &str, limit: usize, into: &mut Vec<u8>) -> Result<(), LoadFail> {
        let entry = reserve_entry(self.alloc, &mut self.loads, name)?;
        let answer = append_path(&self.rt, name, limit, into);
        add_entry(&mut self.loads, entry, limit, answer);
        answer
    }
}

/// Appends the bytes of the file at this path.
fn append_path<R: Files>(
    rt: &R,
    path: &str,
    limit: usize,
    into: &mut Vec<u8>,
) -> Result<(), LoadFail>
    ensures limited { OnOk result (Appends None limit into.old.items into.new.items) }
    ensures unchanged { OnErr result (into.new.items ≡ into.old.items) }
{
    match fs::open(rt, path) {
        Ok(mut file) => append_all(&mut file, limit, into),
        Err(_) => Err(LoadFail::Fault),
    }
}

/// Appends what the reader has, and takes it back where that is more than the limit or a read fails.
fn append_all<R: Read>(reader: &mut R, limit: usize, into: &mut Vec<u8>) -> Result<(), LoadFail>
    ensures limited { OnOk result (Appends None limit into.old.items into.new.items) }
    ensures exact { OnOk result (IfSome (R.remaining reader.old) (λ bytes. into.new.items ≡ into.old.items ++ bytes)) }
    ensures too_long { IsErrOf result LoadFail.TooLong → IfSome (R.remaining reader.old) (λ bytes. limit < length bytes) }
    ensures unchanged { OnErr result (into.new.items ≡ into.old.items) }
{
    let start = into.len();
    let answer = append_up_to(reader, limit, into);
    if answer.is_err() {
        into.truncate(start);
    }
    answer
}

/// Appends block by block until a read gives nothing. It refuses once there is a byte more than the limit.
fn append_up_to<R: Read>(reader: &mut R, limit: usize, into: &mut Vec<u8>) -> Result<(), LoadFail>
    ensures limited { OnOk result (Appends None limit into.old.items into.new.items) }
    ensures exact { OnOk result (IfSome (R.remaining reader.old) (λ bytes. into.new.items ≡ into.old.items ++ bytes)) }
    ensures too_long { IsErrOf result LoadFail.TooLong → IfSome (R.remaining reader.old) (λ bytes. limit < length bytes) }
    ensures starts { StartsWith into.new.items into.old.items }
{
    let start = into.len();
    let mut block = [0; BLOCK];
    while into.len() - start <= limit {
        let left = limit - (into.len() - start);
        let wanted = left.saturating_add(1).min(BLOCK);
        let count = append_block(reader, &mut block[..wanted], into)?;
        if count == 0 {
            return Ok(());
        }
    }
    Err(LoadFail::TooLong)
}

/// Takes room for the block, reads once, and appends what came.
fn append_block<R: Read>(
    reader: &mut R,
    block: &mut [u8],
    into: &mut Vec<u8>,
) -> Result<usize, LoadFail>
    ensures count { IfOk result (λ count. vec_len into.new ≡ vec_len into.old + count) }
    ensures bound { IfOk result (λ count. count ≤ length block.old) }
    ensures refusal { IsErrOf result LoadFail.TooLong → ⊥ }
    ensures bytes { OnOk result (Consumes (R.remaining reader.old) (R.remaining reader.new)
        (appended_bytes into.old.items into.new.items)) }
    ensures end { IfOk result (λ count. count ≡ 0 → 0 < length block.old → IsAtEnd (R.remaining reader.new)) }
    ensures starts { StartsWith into.new.items into.old.items }
{
    into.reserve(block.len())?;
    let Ok(count) = reader.read(block) else {
        return Err(LoadFail::Fault);
    };
    into.extend_from_slice(&block[..count]).unwrap();
    Ok(count)
}
