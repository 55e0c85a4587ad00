//! The text of a trace: the line of an entry, written into a buffer that has room for it, and the lines of a
//! text, read back.
#![tactic(auto)]

mod buffer;
mod cut;
mod examples;
mod laws;
mod line;
mod numbers;
mod read_line;
mod read_states;
mod reader;
mod state_text;
mod states;
mod trace_fail;
mod trace_line;
mod words;

pub use buffer::Buffer;
pub use examples::trace_examples;
pub use laws::trace_laws;
pub use line::put_entry;
pub use reader::read_trace;
pub use state_text::StateText;
pub use trace_fail::TraceFail;
pub use trace_line::{LineWhat, TraceLine};
