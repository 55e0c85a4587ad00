ghost use Rattle.std.specs.Prelude.{◌≡◌, ◌+◌, ◌<◌, ◌==◌, Some, None, length, position, IfSome, IfNone};
ghost use Rattle.tcel_trace.specs.Reading.{cut, behind};

/// What stands in front of the first such byte, and what behind it.
pub(crate) fn cut(bytes: &[u8], byte: u8) -> Option<(&[u8], &[u8])>
    ensures none { IfNone result (cut byte bytes.now ≡ None) }
    ensures found { IfSome result (λ parts. cut byte bytes.now ≡ Some (parts.0.now, parts.1.now)) }
    ensures shorter { IfSome result (λ parts. length parts.1.now < length bytes.now) }
{
    let place = place_of(bytes, byte)?;
    Some((&bytes[..place], &bytes[place + 1..]))
}

fn place_of(bytes: &[u8], byte: u8) -> Option<usize>
    ensures { result ≡ position (λ b. b == byte) bytes.now }
{
    bytes.iter().position(|b| *b == byte)
}

/// What stands behind this front, where the text has it.
pub(crate) fn behind<'a>(text: &'a [u8], front: &[u8]) -> Option<&'a [u8]>
    ensures none { IfNone result (behind front.now text.now ≡ None) }
    ensures found { IfSome result (λ rest. behind front.now text.now ≡ Some rest.now) }
{
    text.strip_prefix(front)
}
