//! The parser: from a list of tokens to the tree of the program, or to the place where the list goes wrong (docs/language.md).
#![tactic(auto)]

mod decl;
mod expr;
mod fail;
mod kinds;
mod level;
mod nodes;
mod parser;
mod parsing;
mod stmt;
mod task;
mod window;

pub use fail::ParseFail;
pub use parsing::parse;
pub use tcel_grammar::Deep;
