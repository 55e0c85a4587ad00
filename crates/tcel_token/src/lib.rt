//! Tokens: the words, names, numbers and signs of a program's text, each with its place (docs/language.md).
#![tactic(auto)]

mod examples;
mod fail;
mod keyword;
mod laws;
mod lexeme;
mod scan;
mod sign;
mod token;

pub use examples::token_examples;
pub use fail::LexFail;
pub use keyword::Keyword;
pub use laws::token_laws;
pub use scan::tokens;
pub use sign::Sign;
pub use token::{Token, TokenKind, Tokens};
