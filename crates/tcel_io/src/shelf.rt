ghost use Rattle.std.specs.Prelude.{◌≡◌, ◌<◌, length, OnOk, OnErr, IfSome, IsErrOf};
ghost use Rattle.tcel_io.specs.Shelf.{Appends, SeenShelf, after_load};
ghost use Rattle.tcel_io.specs.declared.shelf.LoadFail.TheVariants.{NoMemory};

use std::alloc::AllocError;

/// Why a load gave no bytes: the file can't be read, it has more bytes than the limit, or memory ran out.
#[derive(Clone, Copy, Debug, PartialEq, Eq)]
pub enum LoadFail {
    Fault,
    TooLong,
    NoMemory,
}

impl From<AllocError> for LoadFail {
    ghost from_gives = { λ _ fail. fail ≡ NoMemory };

    fn from(_error: AllocError) -> LoadFail {
        LoadFail::NoMemory
    }
}

/// A place that files are loaded from (docs/commands.md, "Files and streams"). It keeps a list of all
/// loads so far. Its count of faults, `load_faults`, is the number of entries that ended in one.
pub trait Shelf {
    // What is seen of it: the bytes under each name, where they are told, and the loads so far.
    ghost seen: { Self → SeenShelf };

    /// Appends the file's bytes, at most `limit`, to `into`. A refusal leaves `into` as it was.
    fn load(&mut self, name: &str, limit: usize, into: &mut Vec<u8>) -> Result<(), LoadFail>
        ensures listed { seen self.new ≡ after_load name.now limit result (seen self.old) }
        ensures ok { OnOk result (Appends ((seen self.old).told name.now) limit into.old.items into.new.items) }
        ensures err { OnErr result (into.new.items ≡ into.old.items) }

        // Where the bytes are told, it refuses them as too long only where they are more than the limit.
        ensures too_long { IsErrOf result LoadFail.TooLong → IfSome ((seen self.old).told name.now)
            (λ bytes. limit < length bytes) };
}
