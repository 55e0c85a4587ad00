ghost use Rattle.std.specs.Prelude.{◌≡◌, ◌<◌, ◌↔◌, ◌⊎◌, [], length, nat_eq, find, Some, IsNone, IsErrOf, IfSome, OnOk, OnErr, Contains};
ghost use Rattle.std.specs.Option.{option_copied};
ghost use Rattle.std.specs.Cmp.Lexicographic.{pointwise};
ghost use Rattle.tcel_io.specs.File.{bytes_under};
ghost use Rattle.tcel_io.specs.MemShelf.{NextLoadFails, seen};
ghost use Rattle.tcel_io.specs.Shelf.{Appends, after_load};

use crate::loaded::Loaded;
use crate::loads::{add_entry, reserve_entry};
use crate::shelf::{LoadFail, Shelf};
use std::alloc::Global;
use std::marker::Model;

/// A file of a shelf in memory. Contracts see the name as its bytes.
#[derive(Debug, Drop)]
pub struct MemFile {
    pub name: String,
    pub bytes: Vec<u8>,
}

impl Model for MemFile {
    ghost use Rattle.std.specs.Prelude.{string_bytes};
    ghost use Rattle.tcel_io.specs.File.{File};

    ghost Value = { File };

    ghost view = { λ f. record { name = string_bytes f.name; bytes = f.bytes.items } };
}

/// A shelf of files in memory, which tells their bytes. The loads with the numbers listed in `fails`,
/// counted from 1, end in a fault. Of two files with one name the first counts.
#[derive(Drop)]
pub struct MemShelf {
    alloc: Global,
    files: Vec<MemFile>,
    fails: Vec<u64>,
    loads: Vec<Loaded>,
}

impl Model for MemShelf {
    ghost use Rattle.tcel_io.specs.MemShelf.{Contents};

    ghost Value = { Contents };

    ghost view = { λ s. record { files = s.files.items; fails = s.fails.items; loads = s.loads.items } };
}

impl MemShelf {
    /// A shelf of these files. It takes no memory. `alloc` serves its list of loads.
    pub fn new(alloc: Global, files: Vec<MemFile>, fails: Vec<u64>) -> MemShelf
        ensures files { result.files ≡ files.items }
        ensures fails { result.fails ≡ fails.items }
        ensures loads { result.loads ≡ [] }
    {
        MemShelf {
            alloc,
            files,
            fails,
            loads: Vec::new(alloc),
        }
    }
}

impl Shelf for MemShelf {
    ghost seen = { seen };

    fn load(&mut self, name: &str, limit: usize, into: &mut Vec<u8>) -> Result<(), LoadFail>
        ensures listed { seen self.new ≡ after_load name.now limit result (seen self.old) }
        ensures ok { OnOk result (Appends (bytes_under self.old.files name.now) limit into.old.items into.new.items) }
        ensures err { OnErr result (into.new.items ≡ into.old.items) }
        ensures too_long { IsErrOf result LoadFail.TooLong → IfSome (bytes_under self.old.files name.now)
            (λ bytes. limit < length bytes) }

        // A fault comes exactly where the load is listed or the name isn't there, but for want of memory.
        ensures fault { IsErrOf result LoadFail.Fault → NextLoadFails self.old name.now }
        ensures fails { NextLoadFails self.old name.now
            → IsErrOf result LoadFail.Fault ⊎ IsErrOf result LoadFail.NoMemory }

        // The files and the loads that fail stay.
        ensures same { self.new ≡ record self.old { loads = self.new.loads } }
    {
        let entry = reserve_entry(self.alloc, &mut self.loads, name)?;
        let number = self.loads.len() as u64 + 1;
        let file = next_file(&self.files, &self.fails, number, name);
        let answer = append_file(file, limit, into);
        add_entry(&mut self.loads, entry, limit, answer);
        answer
    }
}

/// The file that the load with this number reads, if it doesn't fail.
fn next_file<'a>(
    files: &'a [MemFile],
    fails: &[u64],
    number: u64,
    name: &str,
) -> Option<&'a MemFile>
    ensures fails { IsNone result ↔ (Contains fails.now number ⊎ IsNone (bytes_under files.now name.now)) }
    ensures bytes { IfSome result (λ file. bytes_under files.now name.now ≡ Some file.now.bytes) }
{
    if fails.contains(&number) {
        return None;
    }
    find_file(files, name)
}

/// The first file of this name.
fn find_file<'a>(files: &'a [MemFile], name: &str) -> Option<&'a MemFile>
    ensures { option_copied result ≡ find (λ file. pointwise nat_eq file.name name.now) files.now }
{
    files.iter().find(|file| file.name.as_str() == name)
}

/// Appends the file's bytes, or refuses them where there is none or they are above the limit.
fn append_file(file: Option<&MemFile>, limit: usize, into: &mut Vec<u8>) -> Result<(), LoadFail>
    ensures fault { IsErrOf result LoadFail.Fault ↔ IsNone file.entry }
    ensures bytes { OnOk result (IfSome file.entry (λ file. Appends (Some file.now.bytes) limit into.old.items into.new.items)) }
    ensures too_long { IsErrOf result LoadFail.TooLong → IfSome file.entry (λ file. limit < length file.now.bytes) }
    ensures unchanged { OnErr result (into.new.items ≡ into.old.items) }
{
    let file = file.ok_or(LoadFail::Fault)?;
    if file.bytes.len() > limit {
        return Err(LoadFail::TooLong);
    }
    into.extend_from_slice(&file.bytes)?;
    Ok(())
}
