ghost use Rattle.std.specs.Prelude.{◌≡◌};
ghost use Rattle.tcel_grammar.specs.Expressions.{binary_of, unary_of};
ghost use Rattle.tcel_grammar.specs.Faults.{is_opening, is_closing, is_border, is_operator};
ghost use Rattle.tcel_grammar.specs.Machine.{is_word, is_sign, is_name, is_numeral};
ghost use Rattle.tcel_token.specs.declared.token.TokenKind.{TokenKind};

use tcel_num::Op;
use tcel_token::{Keyword, Sign, TokenKind};

pub(crate) fn is_word(kind: &TokenKind, word: Keyword) -> bool
    ensures { result ≡ is_word word kind.now }
{
    match kind {
        TokenKind::Word(found) => *found == word,
        _ => false,
    }
}

pub(crate) fn is_sign(kind: &TokenKind, sign: Sign) -> bool
    ensures { result ≡ is_sign sign kind.now }
{
    match kind {
        TokenKind::Sign(found) => *found == sign,
        _ => false,
    }
}

pub(crate) fn is_name(kind: &TokenKind) -> bool
    ensures { result ≡ is_name kind.now }
{
    matches!(kind, TokenKind::Name(_))
}

pub(crate) fn is_number(kind: &TokenKind) -> bool
    ensures { result ≡ is_numeral kind.now }
{
    matches!(kind, TokenKind::Number(_))
}

pub(crate) fn is_opening(kind: &TokenKind) -> bool
    ensures { result ≡ is_opening kind.now }
{
    match kind {
        TokenKind::Sign(Sign::LeftBrace | Sign::LeftRound | Sign::LeftSquare) => true,
        _ => false,
    }
}

pub(crate) fn is_closing(kind: &TokenKind) -> bool
    ensures { result ≡ is_closing kind.now }
{
    match kind {
        TokenKind::Sign(Sign::RightBrace | Sign::RightRound | Sign::RightSquare) => true,
        _ => false,
    }
}

/// Whether no outermost expression goes on behind this token.
pub(crate) fn is_border(kind: &TokenKind) -> bool
    ensures { result ≡ is_border kind.now }
{
    match kind {
        TokenKind::Sign(Sign::Becomes | Sign::Semicolon | Sign::LeftBrace) => true,
        _ => false,
    }
}

pub(crate) fn is_operator(kind: &TokenKind) -> bool
    ensures { result ≡ is_operator kind.now }
{
    binary_operator(kind).is_some() || unary_operator(kind).is_some()
}

/// The operator between two operands for which a token stands.
pub(crate) fn binary_operator(kind: &TokenKind) -> Option<Op>
    ensures { result ≡ binary_of kind.now }
{
    match kind {
        TokenKind::Word(word) => word_operator(*word),
        TokenKind::Sign(sign) => sign_operator(*sign),
        _ => None,
    }
}

fn word_operator(word: Keyword) -> Option<Op>
    ensures { result ≡ binary_of (TokenKind.Word word) }
{
    match word {
        Keyword::Or => Some(Op::Or),
        Keyword::And => Some(Op::And),
        _ => None,
    }
}

fn sign_operator(sign: Sign) -> Option<Op>
    ensures { result ≡ binary_of (TokenKind.Sign sign) }
{
    match sign {
        Sign::Equal => Some(Op::Equal),
        Sign::Unequal => Some(Op::Unequal),
        Sign::Less => Some(Op::Less),
        Sign::LessOrEqual => Some(Op::LessOrEqual),
        Sign::Greater => Some(Op::Greater),
        Sign::GreaterOrEqual => Some(Op::GreaterOrEqual),
        Sign::Plus => Some(Op::Add),
        Sign::Minus => Some(Op::Sub),
        Sign::Star => Some(Op::Mul),
        Sign::Slash => Some(Op::Div),
        Sign::Percent => Some(Op::Rem),
        _ => None,
    }
}

/// The operator in front of its operand for which a token stands.
pub(crate) fn unary_operator(kind: &TokenKind) -> Option<Op>
    ensures { result ≡ unary_of kind.now }
{
    match kind {
        TokenKind::Sign(Sign::Minus) => Some(Op::Neg),
        TokenKind::Word(Keyword::Not) => Some(Op::Not),
        _ => None,
    }
}
