//! What the meaning of programs and the machine do with words: the operators, and arrays among the words of a task (docs/language.md).
#![tactic(auto)]

mod array;
mod operator;

pub use array::{clear, copy, element, set_element};
pub use operator::{binary, holds, unary};
