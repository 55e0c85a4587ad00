ghost use Rattle.std.specs.Prelude.{◌≡◌, ◌==◌};
ghost use Rattle.std.specs.List.{list_all, slice_split};
ghost use Rattle.tcel_trace.specs.Reading.{is_state, are_states, is_value, is_array, are_numbers, closed_numbers, cut};

use crate::cut::{behind, cut};
use crate::words::{name_in, signed_in};

/// Whether the bytes are any number of ` NAME=VALUE`.
pub(crate) fn are_states(bytes: &[u8]) -> bool
    ensures { result ≡ are_states bytes.now }
{
    match bytes {
        [] => true,
        [first, rest @ ..] => *first == b' ' && all_states(rest),
    }
}

fn all_states(bytes: &[u8]) -> bool
    ensures { result ≡ list_all is_state (slice_split (λ b. b == 32) bytes.now) }
{
    bytes.split(|byte| *byte == b' ').all(|word| is_state(word))
}

fn is_state(word: &[u8]) -> bool
    ensures { result ≡ is_state word.now }
{
    match cut(word, b'=') {
        None => false,
        Some((name, value)) => name_in(name).is_some() && is_value(value),
    }
}

fn is_value(value: &[u8]) -> bool
    ensures { result ≡ is_value value.now }
{
    value == b"true".as_slice()
        || value == b"false".as_slice()
        || signed_in(value).is_some()
        || is_array(value)
}

fn is_array(value: &[u8]) -> bool
    ensures { result ≡ is_array value.now }
{
    match behind(value, b"[") {
        None => false,
        Some(rest) => are_closed(rest),
    }
}

fn are_closed(text: &[u8]) -> bool
    ensures { result ≡ closed_numbers (cut 93 text.now) }
{
    match cut(text, b']') {
        None => false,
        Some((numbers, rest)) => rest.is_empty() && all_numbers(numbers),
    }
}

fn all_numbers(numbers: &[u8]) -> bool
    ensures { result ≡ are_numbers numbers.now }
{
    numbers
        .split(|byte| *byte == b',')
        .all(|number| signed_in(number).is_some())
}
