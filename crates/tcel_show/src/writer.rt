ghost use Rattle.std.specs.Prelude.{◌≤◌};
ghost use Rattle.std.specs.Vec.{vec_len};

/// What stands before the next token.
#[derive(Clone, Copy)]
pub(crate) enum Before {
    /// The start of the text.
    Nothing,
    /// `{` or `;`, which end a line.
    Line,
    /// `}`, which ends a line unless `else` follows.
    Block,
    /// `(`, `[` or the sign of an operand: no space stands behind it.
    Tight,
    /// The last token of an operand.
    Operand,
    Other,
}

/// A text that grows token by token, each at its canonical place (docs/language.md).
#[derive(Drop)]
pub(crate) struct Writer {
    pub text: Vec<u8>,
    /// The number of blocks that are open.
    pub depth: usize,
    pub before: Before,
    ghost shallow: { depth ≤ vec_len text },
}
