//! What the program reads and writes: shelves of files, sinks of bytes, and both in memory and on the host.
#![tactic(auto)]

mod host_shelf;
mod host_sink;
mod laws;
mod loaded;
mod loads;
mod mem_shelf;
mod mem_sink;
mod shelf;
mod sink;

pub use host_shelf::HostShelf;
pub use host_sink::HostSink;
pub use laws::pieces_laws;
pub use loaded::{Loaded, Outcome};
pub use mem_shelf::{MemFile, MemShelf};
pub use mem_sink::{MemSink, PutFail};
pub use shelf::{LoadFail, Shelf};
pub use sink::{Sink, SinkFault};
