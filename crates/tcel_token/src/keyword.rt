ghost use Rattle.std.specs.Prelude.{◌≡◌, find, nat_eq};
ghost use Rattle.std.specs.Cmp.Lexicographic.{pointwise};
ghost use Rattle.tcel_token.specs.Spelling.{word_bytes, word_of};

/// The reserved words, in the order of docs/language.md. A reserved word is no name.
#[derive(Clone, Copy, Debug, PartialEq, Eq)]
pub enum Keyword {
    Task,
    Priority,
    Input,
    Output,
    State,
    Local,
    Int,
    Bool,
    Every,
    Finish,
    Within,
    Start,
    After,
    Before,
    Do,
    Receive,
    From,
    Send,
    To,
    If,
    Else,
    For,
    While,
    Limit,
    True,
    False,
    And,
    Or,
    Not,
}

const WORDS: [Keyword; 29] = [
    Keyword::Task,
    Keyword::Priority,
    Keyword::Input,
    Keyword::Output,
    Keyword::State,
    Keyword::Local,
    Keyword::Int,
    Keyword::Bool,
    Keyword::Every,
    Keyword::Finish,
    Keyword::Within,
    Keyword::Start,
    Keyword::After,
    Keyword::Before,
    Keyword::Do,
    Keyword::Receive,
    Keyword::From,
    Keyword::Send,
    Keyword::To,
    Keyword::If,
    Keyword::Else,
    Keyword::For,
    Keyword::While,
    Keyword::Limit,
    Keyword::True,
    Keyword::False,
    Keyword::And,
    Keyword::Or,
    Keyword::Not,
];

impl Keyword {
    /// How the word is spelled.
    pub fn bytes(self) -> &'static [u8]
        ensures { result.now ≡ word_bytes self }
    {
        match self {
            Keyword::Task => b"task",
            Keyword::Priority => b"priority",
            Keyword::Input => b"input",
            Keyword::Output => b"output",
            Keyword::State => b"state",
            Keyword::Local => b"local",
            Keyword::Int => b"int",
            Keyword::Bool => b"bool",
            Keyword::Every => b"every",
            Keyword::Finish => b"finish",
            Keyword::Within => b"within",
            Keyword::Start => b"start",
            Keyword::After => b"after",
            Keyword::Before => b"before",
            Keyword::Do => b"do",
            Keyword::Receive => b"receive",
            Keyword::From => b"from",
            Keyword::Send => b"send",
            Keyword::To => b"to",
            Keyword::If => b"if",
            Keyword::Else => b"else",
            Keyword::For => b"for",
            Keyword::While => b"while",
            Keyword::Limit => b"limit",
            Keyword::True => b"true",
            Keyword::False => b"false",
            Keyword::And => b"and",
            Keyword::Or => b"or",
            Keyword::Not => b"not",
        }
    }
}

/// The reserved word that these bytes spell.
pub(crate) fn word_of(bytes: &[u8]) -> Option<Keyword>
    ensures { result ≡ word_of bytes.now }
{
    word_among(&WORDS, bytes)
}

fn word_among(words: &[Keyword], bytes: &[u8]) -> Option<Keyword>
    ensures { result ≡ find (λ w. pointwise nat_eq bytes.now (word_bytes w)) words.now }
{
    words.iter().copied().find(|word| bytes == word.bytes())
}
