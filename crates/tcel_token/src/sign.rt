ghost use Rattle.std.specs.Prelude.{◌≡◌, find, nat_eq};
ghost use Rattle.std.specs.Cmp.Lexicographic.{pointwise};
ghost use Rattle.tcel_token.specs.Spelling.{sign_bytes, sign_of};

/// The signs of a program, in the order of docs/language.md.
#[derive(Clone, Copy, Debug, PartialEq, Eq)]
pub enum Sign {
    LeftBrace,
    RightBrace,
    LeftRound,
    RightRound,
    LeftSquare,
    RightSquare,
    Semicolon,
    /// `:=`
    Becomes,
    /// `=`
    Is,
    /// `==`
    Equal,
    /// `!=`
    Unequal,
    Less,
    LessOrEqual,
    Greater,
    GreaterOrEqual,
    Plus,
    Minus,
    Star,
    Slash,
    Percent,
}

const SIGNS: [Sign; 20] = [
    Sign::LeftBrace,
    Sign::RightBrace,
    Sign::LeftRound,
    Sign::RightRound,
    Sign::LeftSquare,
    Sign::RightSquare,
    Sign::Semicolon,
    Sign::Becomes,
    Sign::Is,
    Sign::Equal,
    Sign::Unequal,
    Sign::Less,
    Sign::LessOrEqual,
    Sign::Greater,
    Sign::GreaterOrEqual,
    Sign::Plus,
    Sign::Minus,
    Sign::Star,
    Sign::Slash,
    Sign::Percent,
];

impl Sign {
    /// How the sign is spelled.
    pub fn bytes(self) -> &'static [u8]
        ensures { result.now ≡ sign_bytes self }
    {
        match self {
            Sign::LeftBrace => b"{",
            Sign::RightBrace => b"}",
            Sign::LeftRound => b"(",
            Sign::RightRound => b")",
            Sign::LeftSquare => b"[",
            Sign::RightSquare => b"]",
            Sign::Semicolon => b";",
            Sign::Becomes => b":=",
            Sign::Is => b"=",
            Sign::Equal => b"==",
            Sign::Unequal => b"!=",
            Sign::Less => b"<",
            Sign::LessOrEqual => b"<=",
            Sign::Greater => b">",
            Sign::GreaterOrEqual => b">=",
            Sign::Plus => b"+",
            Sign::Minus => b"-",
            Sign::Star => b"*",
            Sign::Slash => b"/",
            Sign::Percent => b"%",
        }
    }
}

/// The sign that these bytes spell.
pub(crate) fn sign_of(bytes: &[u8]) -> Option<Sign>
    ensures { result ≡ sign_of bytes.now }
{
    sign_among(&SIGNS, bytes)
}

fn sign_among(signs: &[Sign], bytes: &[u8]) -> Option<Sign>
    ensures { result ≡ find (λ s. pointwise nat_eq bytes.now (sign_bytes s)) signs.now }
{
    signs.iter().copied().find(|sign| bytes == sign.bytes())
}
