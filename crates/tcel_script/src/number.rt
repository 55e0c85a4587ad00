ghost use Rattle.std.specs.Prelude.{◌≡◌, if◌then◌else◌, Some, None, option_map, IfOk};
ghost use Rattle.tcel_script.specs.Numbers.{is_digits, magnitude, negative_number, plain_number, number_of, numbers_of};
ghost use Rattle.tcel_script.specs.Lines.{words};

use crate::line::next_word;
use std::alloc::Global;
use tcel_num::NoMemory;

const MOST_DIGITS: usize = 19;

/// The numbers of all words of the text, or None where a word is no number.
pub(crate) fn numbers_of(alloc: Global, text: &[u8]) -> Result<Option<Vec<i64>>, NoMemory>
    ensures { IfOk result (λ found. numbers_of (words text.now) ≡ option_map (λ v. v.items) found) }
{
    let mut numbers = Vec::new(alloc);
    let mut rest = text;
    while let Some((word, more)) = next_word(rest) {
        let Some(number) = number_of(word) else {
            return Ok(None);
        };
        numbers.push(number)?;
        rest = more;
    }
    Ok(Some(numbers))
}

/// The number of a word: perhaps a minus sign and 1 to 19 digits, where 64 bits hold it.
fn number_of(word: &[u8]) -> Option<i64>
    ensures { result ≡ number_of word.now }
{
    match word {
        [] => None,
        [b'-', digits @ ..] => negative_number(digits),
        _ => plain_number(word),
    }
}

fn negative_number(digits: &[u8]) -> Option<i64>
    ensures { result ≡ negative_number digits.now }
{
    i64::try_from(-i128::from(magnitude(digits)?)).ok()
}

fn plain_number(digits: &[u8]) -> Option<i64>
    ensures { result ≡ plain_number digits.now }
{
    i64::try_from(magnitude(digits)?).ok()
}

fn magnitude(word: &[u8]) -> Option<u64>
    ensures { result ≡ (if is_digits word.now then Some (magnitude word.now) else None) }
{
    if word.is_empty() || word.len() > MOST_DIGITS {
        return None;
    }
    let mut n = 0;
    for byte in word {
        if !byte.is_ascii_digit() {
            return None;
        }
        n = 10 * n + u64::from(*byte - b'0');
    }
    Some(n)
}
