ghost use Rattle.std.specs.Prelude.{◌≡◌, ◌↔◌, ◌+◌, ◌≤◌, ◌++◌, IsErr, OnErr, OnOk, drop, length, take};
ghost use Rattle.tcel_io.specs.Count.{one_more};

use crate::sink::{Sink, SinkFault};
use std::io::{self, Stderr, Stdout, Write};
use std::marker::Model;

/// The bytes of a block.
const BLOCK: usize = 65_536;

/// One of the two streams that the host hands to a program.
#[derive(Drop)]
enum Stream {
    Output(Stdout),
    Error(Stderr),
}

impl Stream {
    /// Writes all of the bytes.
    fn write_all(&mut self, bytes: &[u8]) -> io::Result<()> {
        match self {
            Stream::Output(out) => out.write_all(bytes),
            Stream::Error(err) => err.write_all(bytes),
        }
    }
}

/// A sink over standard output or standard error. It gathers what is put in a block of 65,536 bytes, and writes the block where a piece
/// doesn't fit any more; `finish` writes what is left, and nothing else does. It tells no bytes. Contracts see it as its count of faults,
/// which stands still at the last value of a `u64`.
#[derive(Drop)]
pub struct HostSink {
    stream: Stream,
    faults: u64,
    filled: usize,
    block: [u8; BLOCK],
}

impl Model for HostSink {
    ghost use Rattle.std.specs.Prelude.{ℕ};
    ghost use Rattle.tcel_io.specs.HostSink.{IsGathering};

    ghost Value = { ℕ };

    ghost view = { λ s. s.faults };

    ghost invariant = { IsGathering };
}

impl HostSink {
    /// A sink over standard output.
    pub fn output(out: Stdout) -> HostSink
        ensures { result ≡ 0 }
    {
        HostSink::over(Stream::Output(out))
    }

    /// A sink over standard error.
    pub fn error(err: Stderr) -> HostSink
        ensures { result ≡ 0 }
    {
        HostSink::over(Stream::Error(err))
    }

    fn over(stream: Stream) -> HostSink
        ensures { result ≡ 0 }
    {
        HostSink {
            stream,
            faults: 0,
            filled: 0,
            block: [0; BLOCK],
        }
    }

    /// Writes what was put and not yet written (docs/commands.md, "Writing to a stream"). At a fault what is left is dropped.
    pub fn finish(&mut self) -> Result<(), SinkFault>
        ensures written { OnOk result (self.new ≡ self.old) }
        ensures fault { OnErr result (self.new ≡ one_more self.old) }
    {
        let written = self.stream.write_all(&self.block[..self.filled]);
        self.filled = 0;
        self.count(written)
    }

    /// Counts a write that failed.
    fn count(&mut self, written: io::Result<()>) -> Result<(), SinkFault>
        ensures told { IsErr result ↔ IsErr written }
        ensures written { OnOk result (self.new ≡ self.old) }
        ensures fault { OnErr result (self.new ≡ one_more self.old) }
    {
        if written.is_err() {
            self.faults = self.faults.saturating_add(1);
            return Err(SinkFault);
        }
        Ok(())
    }
}

impl Sink for HostSink {
    ghost use Rattle.std.specs.Prelude.{None};

    ghost seen = { λ sink. record { taken = None; faults = sink; puts = None; reach = None } };

    ghost reach_told = { λ sink told. told };

    fn put(&mut self, piece: &[u8]) -> Result<(), SinkFault> {
        if piece.len() > BLOCK - self.filled {
            self.finish()?;
        }
        if piece.len() > BLOCK - self.filled {
            let written = self.stream.write_all(piece);
            return self.count(written);
        }
        copy_to(&mut self.block, self.filled, piece);
        self.filled += piece.len();
        Ok(())
    }
}

/// Copies the piece to this place of the block.
fn copy_to(block: &mut [u8], place: usize, piece: &[u8])
    requires { place + length piece.now ≤ length block.old }
    ensures { block.new ≡ take place block.old ++ piece.now ++ drop (place + length piece.now) block.old }
{
    block[place..place + piece.len()].copy_from_slice(piece);
}
