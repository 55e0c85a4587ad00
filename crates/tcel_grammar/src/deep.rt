/// What there is too much of where a program is nested too deep: unclosed brackets, of which there may be 32, or operators of an
/// outermost expression, of which there may be 64 (docs/language.md).
#[derive(Clone, Copy, Debug, PartialEq, Eq)]
pub enum Deep {
    Nesting,
    Operators,
}
