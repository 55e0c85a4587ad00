ghost use Rattle.std.specs.Prelude.{◌≡◌, ◌+◌, ◌*◌, ◌≤◌, ◌++◌, map, length};
ghost use Rattle.std.specs.Fmt.{decimal, signed_decimal};
ghost use Rattle.std.specs.List.{join_with_byte};
ghost use Rattle.tcel_trace.specs.Pieces.{more_numbers};

use crate::buffer::Buffer;

pub(crate) fn put_decimal(buffer: &mut Buffer, number: u64)
    requires { length buffer.old.bytes + 20 ≤ buffer.old.room }
    ensures bytes { buffer.new.bytes ≡ buffer.old.bytes ++ decimal number }
    ensures short { length buffer.new.bytes ≤ length buffer.old.bytes + 20 }
    ensures room { buffer.old.room ≤ buffer.new.room }
{
    let mut digits = itoa::Buffer::new();
    buffer.push(digits.format(number).as_bytes());
}

pub(crate) fn put_signed(buffer: &mut Buffer, number: i64)
    requires { length buffer.old.bytes + 20 ≤ buffer.old.room }
    ensures bytes { buffer.new.bytes ≡ buffer.old.bytes ++ signed_decimal number }
    ensures short { length buffer.new.bytes ≤ length buffer.old.bytes + 20 }
    ensures room { buffer.old.room ≤ buffer.new.room }
{
    let mut digits = itoa::Buffer::new();
    buffer.push(digits.format(number).as_bytes());
}

/// The numbers, each behind a comma.
fn put_more(buffer: &mut Buffer, numbers: &[i64])
    requires { length buffer.old.bytes + 21 * length numbers.now ≤ buffer.old.room }
    ensures bytes { buffer.new.bytes ≡ buffer.old.bytes ++ more_numbers numbers.now }
    ensures short { length buffer.new.bytes ≤ length buffer.old.bytes + 21 * length numbers.now }
    ensures room { buffer.old.room ≤ buffer.new.room }
{
    for number in numbers {
        buffer.push(b",");
        put_signed(buffer, *number);
    }
}

/// The numbers, with a comma between two.
pub(crate) fn put_numbers(buffer: &mut Buffer, numbers: &[i64])
    requires { length buffer.old.bytes + 21 * length numbers.now ≤ buffer.old.room }
    ensures bytes { buffer.new.bytes ≡ buffer.old.bytes ++ join_with_byte 44 (map signed_decimal numbers.now) }
    ensures short { length buffer.new.bytes ≤ length buffer.old.bytes + 21 * length numbers.now }
    ensures room { buffer.old.room ≤ buffer.new.room }
{
    if let [first, rest @ ..] = numbers {
        put_signed(buffer, *first);
        put_more(buffer, rest);
    }
}
