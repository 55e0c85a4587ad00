ghost use Rattle.std.specs.Prelude.{◌≡◌, ◌+◌, ◌≤◌, ◌++◌, [], length, All, IfOk};
ghost use Rattle.tcel_image.specs.Spelling.{TaskInRange};
ghost use Rattle.tcel_trace.specs.Room.{line_bound, HasRoom, HoldsLines};

use std::alloc::Global;
use std::marker::Model;
use tcel_image::ImageTask;
use tcel_num::NoMemory;
use tcel_verify::Ready;

/// The line of an entry. Contracts see its bytes, and how many bytes it has room for.
#[derive(Debug, Drop)]
pub struct Buffer {
    bytes: Vec<u8>,
}

impl Model for Buffer {
    ghost use Rattle.std.specs.Prelude.{vec_capacity};
    ghost use Rattle.tcel_trace.specs.Contents.{Contents};

    ghost Value = { Contents };

    ghost view = { λ buffer. record { bytes = buffer.bytes.items; room = vec_capacity buffer.bytes } };
}

impl Buffer {
    /// An empty buffer with room for the longest line of the image (docs/formats.md).
    #[tactic(auto, using(crate::proofs::Lengths::holds_lines))]
    pub fn for_image(alloc: Global, ready: &Ready) -> Result<Buffer, NoMemory>
        ensures bytes { IfOk result (λ buffer. buffer.bytes ≡ []) }
        ensures room { IfOk result (λ buffer. HasRoom buffer.room ready.now) }
        ensures lines { IfOk result (λ buffer. HoldsLines buffer.room ready.now) }
    {
        let room = longest_line(ready.image().tasks.as_slice());
        Ok(Buffer {
            bytes: Vec::with_capacity(alloc, room)?,
        })
    }

    /// The line, with its line feed.
    pub fn bytes(&self) -> &[u8]
        ensures { result.now ≡ self.now.bytes }
    {
        self.bytes.as_slice()
    }

    pub(crate) fn clear(&mut self)
        ensures bytes { self.new.bytes ≡ [] }
        ensures room { self.old.room ≤ self.new.room }
    {
        self.bytes.clear();
    }

    /// Writes the piece at the end.
    pub(crate) fn push(&mut self, piece: &[u8])
        requires { length self.old.bytes + length piece.now ≤ self.old.room }
        ensures bytes { self.new.bytes ≡ self.old.bytes ++ piece.now }
        ensures length { length self.new.bytes ≡ length self.old.bytes + length piece.now }
        ensures room { self.old.room ≤ self.new.room }
    {
        self.bytes.extend_from_slice(piece).unwrap();
    }
}

/// No line of the task is longer: 20 bytes for each number, 32 for each name.
fn line_bound(task: &ImageTask) -> usize
    requires { TaskInRange task.now }
    ensures { result ≡ line_bound task.now }
{
    137 + 54 * task.states.len() + 21 * task.cells.min(4096) as usize
}

fn longest_line(tasks: &[ImageTask]) -> usize
    requires { All TaskInRange tasks.now }
    ensures { All (λ task. line_bound task ≤ result) tasks.now }
{
    let mut longest = 0;
    for task in tasks {
        longest = line_bound(task).max(longest);
    }
    longest
}
