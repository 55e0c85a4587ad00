ghost use Rattle.std.specs.Prelude.{◌≡◌, ◌↔◌, ◌++◌, [], take, IfOk, IsErr, IsOk, OnOk, OnErr};
ghost use Rattle.tcel_io.specs.Count.{one_more};
ghost use Rattle.tcel_io.specs.MemSink.{NextPutFails, cut_of, seen, taken_next};
ghost use Rattle.tcel_io.specs.Seen.{IsCutOff, IsTaken};

use crate::sink::{Sink, SinkFault};
use std::alloc::Global;
use std::marker::Model;
use tcel_num::NoMemory;

/// A put that fails: the number of the put, from 1, and how many bytes it takes at most.
#[derive(Clone, Copy, Debug, PartialEq, Eq)]
pub struct PutFail {
    pub call: u64,
    pub taken: usize,
}

/// A sink in memory with room for a number of bytes, which tells its bytes, its reach and its number of
/// puts. The puts that are listed fail, the first entry with the put's number counts, and so does a put
/// that passes the room.
#[derive(Debug, Drop)]
pub struct MemSink {
    bytes: Vec<u8>,
    room: usize,
    fails: Vec<PutFail>,
    puts: u64,
    faults: u64,
    reach: usize,
}

impl Model for MemSink {
    ghost use Rattle.std.specs.Prelude.{◌≤◌, vec_capacity, vec_len};
    ghost use Rattle.tcel_io.specs.MemSink.{State};

    ghost Value = { State };

    ghost view = { λ s. record { taken = s.bytes.items; room = s.room; fails = s.fails.items; puts = s.puts; faults = s.faults; reach = s.reach } };

    ghost invariant = { λ s. (vec_len s.bytes ≤ s.room) × (s.room ≤ vec_capacity s.bytes) };
}

impl MemSink {
    /// A sink that holds up to `room` bytes, whose memory it takes here.
    pub fn new(alloc: Global, room: usize, fails: Vec<PutFail>) -> Result<MemSink, NoMemory>
        ensures { IfOk result (λ sink. sink ≡ record { taken = []; room = room; fails = fails.items; puts = 0; faults = 0; reach = 0 }) }
    {
        Ok(MemSink {
            bytes: Vec::with_capacity(alloc, room)?,
            room,
            fails,
            puts: 0,
            faults: 0,
            reach: 0,
        })
    }

    /// The bytes taken so far.
    pub fn bytes(&self) -> &[u8]
        ensures { result.now ≡ self.now.taken }
    {
        &self.bytes
    }
}

impl Sink for MemSink {
    ghost seen = { seen };

    ghost reach_told = { λ sink told. told };

    fn put(&mut self, piece: &[u8]) -> Result<(), SinkFault>
        ensures taken { OnOk result (IsTaken piece.now (seen self.old) (seen self.new)) }
        ensures cut_off { OnErr result (IsCutOff piece.now (seen self.old) (seen self.new)) }
        ensures empty { piece.now ≡ [] → IsOk result }

        // It fails exactly where the put is listed or passes the room, and takes what fits and its cut allows.
        ensures fails { IsErr result ↔ NextPutFails self.old piece.now }
        ensures grown { self.new.taken ≡ self.old.taken ++ take (taken_next self.old piece.now) piece.now }

        // A fault counts one. The room and the list of puts that fail stay.
        ensures counted { OnErr result (self.new.faults ≡ one_more self.old.faults) }
        ensures room { self.new.room ≡ self.old.room }
        ensures list { self.new.fails ≡ self.old.fails }
    {
        if piece.is_empty() {
            return Ok(());
        }
        self.puts = self.puts.saturating_add(1);
        self.reach = self.reach.max(self.bytes.len() + piece.len());
        let fitting = piece.len().min(self.room - self.bytes.len());
        let cut = find_cut(&self.fails, self.puts);
        let count = cut.unwrap_or(fitting).min(fitting);
        self.bytes.extend_from_slice(&piece[..count]).unwrap();
        if cut.is_some() || fitting < piece.len() {
            self.faults = self.faults.saturating_add(1);
            return Err(SinkFault);
        }
        Ok(())
    }
}

/// How many bytes the put of this number takes at most, where it is listed.
fn find_cut(fails: &[PutFail], number: u64) -> Option<usize>
    ensures { result ≡ cut_of fails.now number }
{
    fails
        .iter()
        .find(|fail| fail.call == number)
        .map(|fail| fail.taken)
}
