use crate::keyword::Keyword;
use crate::sign::Sign;
use sqlite_items::Items;
use tcel_num::{At, Name};

/// What a token is. A number is 0 to 9223372036854775807.
#[derive(Clone, Copy, Debug)]
pub enum TokenKind {
    Word(Keyword),
    Name(Name),
    Number(i64),
    Sign(Sign),
}

/// A token of a text: the offset of its first byte, from 0, its length in bytes, and the place of its first byte
/// (docs/language.md).
#[derive(Clone, Copy, Debug)]
pub struct Token {
    pub kind: TokenKind,
    pub start: usize,
    pub length: usize,
    pub at: At,
}

/// The tokens of a text, and the place behind its last byte.
#[derive(Debug, Drop)]
pub struct Tokens {
    pub list: Items<Token>,
    pub end: At,
}
