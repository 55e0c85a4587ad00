/// A place in a text: line and column, both from 1. Columns count bytes. See docs/language.md.
#[derive(Clone, Copy, Debug, PartialEq, Eq)]
pub struct At {
    pub line: u32,
    pub column: u32,
}
