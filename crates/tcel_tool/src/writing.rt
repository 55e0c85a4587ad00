ghost use Rattle.std.specs.Prelude.{◌≡◌, ◌++◌, OnOk};

use itoa::{Buffer, Integer};
use tcel_num::NoMemory;

/// Appends a piece to a text.
pub(crate) fn put(out: &mut Vec<u8>, piece: &[u8]) -> Result<(), NoMemory>
    ensures { OnOk result (out.new.items ≡ out.old.items ++ piece.now) }
{
    out.extend_from_slice(piece)?;
    Ok(())
}

/// Appends a number's digits to a text.
pub(crate) fn put_number<I: Integer>(out: &mut Vec<u8>, number: I) -> Result<(), NoMemory>
    ensures { OnOk result (out.new.items ≡ out.old.items ++ I.text number) }
{
    put(out, Buffer::new().format(number).as_bytes())
}
