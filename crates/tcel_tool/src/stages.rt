ghost use Rattle.std.specs.Prelude.{◌≡◌, ◌≤◌, IfErr, IfOk, IsTrue, map, string_bytes};
ghost use Rattle.tcel_script.specs.Numbers.{magnitude};
ghost use Rattle.tcel_tool.specs.Answer.{IsAbove, Loads, StopsAtLoad};
ghost use Rattle.tcel_tool.specs.CommandLine.{is_number, number_at, word_at};

use crate::status::{CountKind, LimitFault, Status};
use std::alloc::Global;
use tcel_io::{LoadFail, Shelf};

/// The bytes of the file of this word.
pub(crate) fn load<H: Shelf>(
    alloc: Global,
    words: &[String],
    word: usize,
    limit: usize,
    shelf: &mut H,
) -> Result<Vec<u8>, Status>
    ensures loaded { IfOk result (λ bytes. Loads (map string_bytes words.now) word limit (H.seen shelf.old) (H.seen shelf.new) bytes.items) }
    ensures stopped { IfErr result (StopsAtLoad (map string_bytes words.now) word limit (H.seen shelf.old) (H.seen shelf.new)) }
{
    let mut bytes = Vec::new(alloc);
    match shelf.load(word_at(words, word), limit, &mut bytes) {
        Ok(()) => Ok(bytes),
        Err(LoadFail::Fault) => Err(Status::ReadFault { word }),
        Err(LoadFail::TooLong) => Err(Status::Limit(LimitFault::Bytes { word, limit })),
        Err(LoadFail::NoMemory) => Err(Status::NoMemory),
    }
}

/// The number that this word writes, up to the greatest one allowed.
pub(crate) fn number_up_to(
    words: &[String],
    word: usize,
    kind: CountKind,
    most: u64,
) -> Result<u64, Status>
    requires { IsTrue (is_number (word_at (map string_bytes words.now) word)) }
    ensures value { IfOk result (λ number. number ≡ number_at (map string_bytes words.now) word) }
    ensures few { IfOk result (λ number. number_at (map string_bytes words.now) word ≤ most) }
    ensures above { IfErr result (IsAbove (map string_bytes words.now) kind word most) }
{
    let value = number_at(words, word);
    if value > most {
        return Err(Status::Limit(LimitFault::Count { kind, value }));
    }
    Ok(value)
}

/// The number that this word writes, whatever it is.
pub(crate) fn number_at(words: &[String], word: usize) -> u64
    requires { IsTrue (is_number (word_at (map string_bytes words.now) word)) }
    ensures { result ≡ number_at (map string_bytes words.now) word }
{
    number_of(word_at(words, word).as_bytes())
}

/// The number that digits write.
pub(crate) fn number_of(word: &[u8]) -> u64
    requires { IsTrue (is_number word.now) }
    ensures { result ≡ magnitude word.now }
{
    let mut number = 0;
    for byte in word {
        number = 10 * number + u64::from(*byte - b'0');
    }
    number
}

/// The word of this number, or nothing where there is none.
pub(crate) fn word_at(words: &[String], word: usize) -> &str
    ensures { result.now ≡ word_at (map string_bytes words.now) word }
{
    match words.get(word) {
        Some(word) => word.as_str(),
        None => "",
    }
}
