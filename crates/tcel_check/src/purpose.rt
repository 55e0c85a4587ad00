use crate::value_type::ValueType;

/// What a name is used for (docs/language.md).
#[derive(Clone, Copy, Debug, PartialEq, Eq)]
pub enum Purpose {
    /// As a scalar variable: of this type, where one is wanted.
    Scalar(Option<ValueType>),
    /// As an array, with an index.
    Element,
    /// As an input, after `from`.
    From,
    /// As an output, after `to`.
    To,
}
