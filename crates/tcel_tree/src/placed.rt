use tcel_num::At;

/// A number and its place.
#[derive(Clone, Copy, Debug, PartialEq, Eq)]
pub struct Placed {
    /// 0 or more, where it was read from a text.
    pub value: i64,
    pub at: At,
}
