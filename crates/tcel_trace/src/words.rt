ghost use Rattle.std.specs.Prelude.{◌≡◌};
ghost use Rattle.tcel_trace.specs.Reading.{number_in, signed_in, name_in};

use tcel_num::Name;

/// The number that is written so.
pub(crate) fn number_in(word: &[u8]) -> Option<u64>
    ensures { result ≡ number_in word.now }
{
    let Ok(text) = str::from_utf8(word) else {
        return None;
    };
    let Ok(number) = text.parse::<u64>() else {
        return None;
    };
    let mut digits = itoa::Buffer::new();
    if digits.format(number).as_bytes() == word {
        Some(number)
    } else {
        None
    }
}

/// The signed number that is written so.
pub(crate) fn signed_in(word: &[u8]) -> Option<i64>
    ensures { result ≡ signed_in word.now }
{
    let Ok(text) = str::from_utf8(word) else {
        return None;
    };
    let Ok(number) = text.parse::<i64>() else {
        return None;
    };
    let mut digits = itoa::Buffer::new();
    if digits.format(number).as_bytes() == word {
        Some(number)
    } else {
        None
    }
}

pub(crate) fn name_in(word: &[u8]) -> Option<Name>
    ensures { result ≡ name_in word.now }
{
    Name::new(word)
}
