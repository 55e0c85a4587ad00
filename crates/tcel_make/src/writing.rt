ghost use Rattle.std.specs.Prelude.{◌≡◌, ◌++◌, OnOk};
ghost use Rattle.std.specs.Fmt.{decimal};
ghost use Rattle.std.specs.List.{repeat};

use itoa::Buffer;
use tcel_num::NoMemory;

/// Appends a piece to a text.
pub(crate) fn put(text: &mut Vec<u8>, piece: &[u8]) -> Result<(), NoMemory>
    ensures { OnOk result (text.new.items ≡ text.old.items ++ piece.now) }
{
    text.extend_from_slice(piece)?;
    Ok(())
}

/// Appends a piece and a number behind it.
pub(crate) fn put_number(text: &mut Vec<u8>, before: &[u8], number: u64) -> Result<(), NoMemory>
    ensures { OnOk result (text.new.items ≡ text.old.items ++ (before.now ++ decimal number)) }
{
    put(text, before)?;
    put(text, Buffer::new().format(number).as_bytes())
}

/// Appends a line so many times.
pub(crate) fn put_times(text: &mut Vec<u8>, line: &[u8], count: u64) -> Result<(), NoMemory>
    ensures { OnOk result (text.new.items ≡ text.old.items ++ repeat count line.now) }
{
    for _ in 0..count {
        put(text, line)?;
    }
    Ok(())
}
