ghost use Rattle.std.specs.Prelude.{◌≡◌, ◌+◌, ◌-◌, ◌*◌, SomeIff, ◌<◌, ◌≤◌, ◌^◌, IfErr, IfOk, Some, None, if◌then◌else◌, false, length, nat_lt, pos, take, true};
ghost use Rattle.std.specs.List.{list_all, prefix_len};
ghost use Rattle.std.specs.Option.{option_or};
ghost use Rattle.std.specs.Char.{is_ascii_digit};
ghost use Rattle.std.specs.Str.Parse.{digits_value};
ghost use Rattle.tcel_num.specs.Name.{is_word, may_follow, may_start};
ghost use Rattle.tcel_token.specs.Lexeme.{IsFirst, starts, IsLongWord, IsLargeNumber};
ghost use Rattle.tcel_token.specs.Pieces.{in_line, is_blank, opens_comment};
ghost use Rattle.tcel_token.specs.Spelling.{kind_of_word, sign_of};
ghost use Rattle.tcel_token.specs.Tokens.{begins_sign, fault_at};
ghost use Rattle.tcel_token.specs.declared.fail.LexFail.TheVariants.{BadByte, BadNumber, NameTooLong};

use crate::fail::LexFail;
use crate::keyword::word_of;
use crate::sign::{Sign, sign_of};
use crate::token::TokenKind;
use tcel_num::{At, Name, may_follow, may_start};

pub(crate) const LINE_FEED: u8 = b'\n';

const LONGEST: usize = 32;

/// The first piece of some bytes: its length, and what it is as a token, unless it is a blank or a comment.
#[derive(Clone, Copy)]
pub(crate) struct Lexeme {
    pub length: usize,
    pub kind: Option<TokenKind>,
}

/// The first piece of bytes that stand at this place, or the fault there.
pub(crate) fn first_lexeme(bytes: &[u8], at: At) -> Result<Lexeme, LexFail>
    requires { 0 < length bytes.now }
    ensures first { IfOk result (IsFirst bytes.now) }
    ensures fault { IfErr result (λ fault. fault_at at bytes.now ≡ Some fault) }
{
    let first = bytes[0];
    if is_blank(first) {
        Ok(Lexeme {
            length: 1,
            kind: None,
        })
    } else if opens_comment(bytes) {
        Ok(Lexeme {
            length: line_length(bytes),
            kind: None,
        })
    } else if may_start(first) {
        word(bytes, at)
    } else if first.is_ascii_digit() {
        number(bytes, at)
    } else {
        sign(bytes, at)
    }
}

fn is_blank(byte: u8) -> bool
    ensures { result ≡ is_blank byte }
{
    matches!(byte, b' ' | b'\t' | b'\r' | LINE_FEED)
}

fn word_length(bytes: &[u8]) -> usize
    ensures { result ≡ prefix_len may_follow bytes.now }
{
    bytes.iter().take_while(|byte| may_follow(**byte)).count()
}

fn number_length(bytes: &[u8]) -> usize
    ensures { result ≡ prefix_len is_ascii_digit bytes.now }
{
    bytes
        .iter()
        .take_while(|byte| byte.is_ascii_digit())
        .count()
}

fn line_length(bytes: &[u8]) -> usize
    ensures { result ≡ prefix_len in_line bytes.now }
{
    bytes.iter().take_while(|byte| **byte != LINE_FEED).count()
}

/// The number that digits write, if it is at most 9223372036854775807.
fn value_of(digits: &[u8]) -> Option<i64>
    requires { list_all is_ascii_digit digits.now ≡ true }
    ensures { result ≡ (if nat_lt (digits_value 10 digits.now) (2 ^ 63) then Some (pos (digits_value 10 digits.now)) else None) }
{
    let mut value = 0;
    for digit in digits {
        let Some(longer) = with_digit(value, *digit) else {
            return None;
        };
        value = longer;
    }
    i64::try_from(value).ok()
}

fn with_digit(value: u64, digit: u8) -> Option<u64>
    requires { 48 ≤ digit }
    ensures { SomeIff result (10 * value + (digit - 48) < 2 ^ 64) (10 * value + (digit - 48)) }
{
    value.checked_mul(10)?.checked_add(u64::from(digit - b'0'))
}

/// The longest sign that begins the bytes.
fn first_sign(bytes: &[u8]) -> Option<Sign>
    requires { 0 < length bytes.now }
    ensures { result ≡ option_or (sign_of (take 2 bytes.now)) (sign_of (take 1 bytes.now)) }
{
    match sign_of(&bytes[..bytes.len().min(2)]) {
        Some(sign) => Some(sign),
        None => sign_of(&bytes[..1]),
    }
}

fn opens_comment(bytes: &[u8]) -> bool
    ensures { result ≡ opens_comment (take 2 bytes.now) }
{
    matches!(bytes, [b'/', b'/', ..])
}

/// A word or a name, of at most 32 bytes.
fn word(bytes: &[u8], at: At) -> Result<Lexeme, LexFail>
    requires { starts may_start bytes.now ≡ true }
    ensures first { IfOk result (IsFirst bytes.now) }
    ensures fault { IfErr result (λ fault. IsLongWord bytes.now × (fault ≡ NameTooLong at)) }
{
    let length = word_length(bytes);
    if length > LONGEST {
        return Err(LexFail::NameTooLong { at });
    }
    let kind = kind_of_word(&bytes[..length]);
    Ok(Lexeme {
        length,
        kind: Some(kind),
    })
}

/// A reserved word, or a name.
fn kind_of_word(bytes: &[u8]) -> TokenKind
    requires word { is_word bytes.now ≡ true }
    requires short { length bytes.now ≤ 32 }
    ensures { result ≡ kind_of_word bytes.now }
{
    match (word_of(bytes), Name::new(bytes)) {
        (None, Some(name)) => TokenKind::Name(name),
        (Some(word), _) => TokenKind::Word(word),
        (None, None) => unreachable!(),
    }
}

/// A number of at most 9223372036854775807.
fn number(bytes: &[u8], at: At) -> Result<Lexeme, LexFail>
    requires { starts is_ascii_digit bytes.now ≡ true }
    ensures first { IfOk result (IsFirst bytes.now) }
    ensures fault { IfErr result (λ fault. IsLargeNumber bytes.now × (fault ≡ BadNumber at)) }
{
    let length = number_length(bytes);
    match value_of(&bytes[..length]) {
        Some(value) => Ok(Lexeme {
            length,
            kind: Some(TokenKind::Number(value)),
        }),
        None => Err(LexFail::BadNumber { at }),
    }
}

/// A sign, where no comment stands.
fn sign(bytes: &[u8], at: At) -> Result<Lexeme, LexFail>
    requires some { 0 < length bytes.now }
    requires passed { opens_comment (take 2 bytes.now) ≡ false }
    ensures first { IfOk result (IsFirst bytes.now) }
    ensures fault { IfErr result (λ fault. (begins_sign bytes.now ≡ false) × (fault ≡ BadByte at)) }
{
    match first_sign(bytes) {
        Some(sign) => Ok(Lexeme {
            length: sign.bytes().len(),
            kind: Some(TokenKind::Sign(sign)),
        }),
        None => Err(LexFail::BadByte { at }),
    }
}
