ghost use Rattle.std.specs.Prelude.{◌≡◌, ◌+◌, ◌++◌, ◌≤◌, IfOk, OnOk, if◌then◌else◌, length};
ghost use Rattle.tcel_token.specs.Pieces.{is_line_feed};
ghost use Rattle.tcel_token.specs.Terminal.{terminals};
ghost use Rattle.tcel_token.specs.Tokens.{Answers, token_at};
ghost use Rattle.tcel_token.specs.WellFormed.{AreWellFormed};

use crate::fail::LexFail;
use crate::lexeme::{LINE_FEED, Lexeme, first_lexeme};
use crate::token::{Token, TokenKind, Tokens};
use sqlite_items::Items;
use std::alloc::Global;
use tcel_num::{At, NoMemory};

/// The tokens of a text of at most 1,048,576 bytes, or its first fault (docs/language.md).
pub fn tokens(alloc: Global, text: &[u8]) -> Result<Tokens, LexFail>
    requires { length text.now ≤ 1048576 }
    ensures answers { Answers text.now result }
    ensures well_formed { IfOk result (λ t. AreWellFormed (terminals t.list) t.end) }
{
    let mut list = Items::new(alloc);
    let mut start = 0;
    let mut at = At { line: 1, column: 1 };
    while start < text.len() {
        let rest = &text[start..];
        let Lexeme { length, kind } = first_lexeme(rest, at)?;
        put_token(&mut list, kind, start, length, at)?;
        at = behind(at, rest[0], length);
        start += length;
    }
    Ok(Tokens { list, end: at })
}

/// Puts the token of a piece, if it is one.
fn put_token(
    list: &mut Items<Token>,
    kind: Option<TokenKind>,
    start: usize,
    length: usize,
    at: At,
) -> Result<(), NoMemory>
    ensures { OnOk result (list.new ≡ list.old ++ token_at kind start length at) }
{
    if let Some(kind) = kind {
        list.push(Token {
            kind,
            start,
            length,
            at,
        })?;
    }
    Ok(())
}

/// The place behind a piece of this length that stands at a place and begins with this byte.
fn behind(at: At, first: u8, length: usize) -> At
    requires lines { at.line ≤ 1048577 }
    requires columns { at.column + length ≤ 1048577 }
    ensures { result ≡ (if is_line_feed first then record { line = at.line + 1; column = 1 } else record { line = at.line; column = at.column + length }) }
{
    if first == LINE_FEED {
        At {
            line: at.line + 1,
            column: 1,
        }
    } else {
        At {
            line: at.line,
            column: at.column + length as u32,
        }
    }
}
