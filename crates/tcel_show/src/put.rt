ghost use Rattle.std.specs.Prelude.{◌≡◌, ◌++◌, ◌<◌, ◌^◌, [], ◌∷◌, IfOk, OnOk, if◌then◌else◌, pos};
ghost use Rattle.tcel_show.specs.Layout.{closes, depth_behind, gap_behind, is_else, is_nothing, kind_before, minus_before, new_line, sign_before, spelling};
ghost use Rattle.tcel_show.specs.Puts.{Puts};
ghost use Rattle.tcel_token.specs.declared.token.TokenKind.{TokenKind};
ghost use Rattle.tcel_show.specs.declared.writer.Before.{Before};

use crate::writer::{Before, Writer};
use std::alloc::Global;
use tcel_num::{Name, NoMemory};
use tcel_token::{Keyword, Sign, TokenKind};
use tcel_tree::Placed;

const LINE_FEED: u8 = b'\n';

impl Writer {
    /// An empty text.
    pub fn new(alloc: Global) -> Writer
        ensures text { result.text.items ≡ [] }
        ensures depth { result.depth ≡ 0 }
        ensures before { result.before ≡ Before.Nothing }
    {
        Writer {
            text: Vec::new(alloc),
            depth: 0,
            before: Before::Nothing,
        }
    }

    pub fn word(&mut self, word: Keyword) -> Result<(), NoMemory>
        ensures { OnOk result (Puts self.old self.new (TokenKind.Word word ∷ [])) }
    {
        self.put(TokenKind::Word(word), word.bytes())
    }

    pub fn sign(&mut self, sign: Sign) -> Result<(), NoMemory>
        ensures { OnOk result (Puts self.old self.new (TokenKind.Sign sign ∷ [])) }
    {
        self.put(TokenKind::Sign(sign), sign.bytes())
    }

    pub fn name(&mut self, name: &Name) -> Result<(), NoMemory>
        ensures { OnOk result (Puts self.old self.new (TokenKind.Name name.now ∷ [])) }
    {
        self.put(TokenKind::Name(*name), name.bytes())
    }

    pub fn number(&mut self, number: i64) -> Result<(), NoMemory>
        ensures { OnOk result (Puts self.old self.new (TokenKind.Number number ∷ [])) }
    {
        let mut digits = itoa::Buffer::new();
        self.put(TokenKind::Number(number), digits.format(number).as_bytes())
    }

    pub fn placed(&mut self, number: &Placed) -> Result<(), NoMemory>
        ensures { OnOk result (Puts self.old self.new (TokenKind.Number number.now.value ∷ [])) }
    {
        self.number(number.value)
    }

    /// A number of 0 or more, up to the magnitude of the least one.
    pub fn magnitude(&mut self, number: u64) -> Result<(), NoMemory>
        ensures { OnOk result (Puts self.old self.new (TokenKind.Number (pos number) ∷ [])) }
    {
        let mut digits = itoa::Buffer::new();
        self.gap(&TokenKind::Number(0))?;
        self.text
            .extend_from_slice(digits.format(number).as_bytes())?;
        self.before = Before::Operand;
        Ok(())
    }

    /// A token with this spelling.
    fn put(&mut self, kind: TokenKind, bytes: &[u8]) -> Result<(), NoMemory>
        requires { bytes.now ≡ spelling kind }
        ensures { OnOk result (Puts self.old self.new (kind ∷ [])) }
    {
        self.gap(&kind)?;
        self.text.extend_from_slice(bytes)?;
        self.depth = depth_behind(self.depth, &kind);
        self.before = kind_before(self.before, &kind);
        Ok(())
    }

    /// The text, with its last line feed.
    pub fn finish(self) -> Result<Vec<u8>, NoMemory>
        ensures { IfOk result (λ text. text.items ≡ (if is_nothing self.before then self.text.items else self.text.items ++ 10 ∷ [])) }
    {
        let Writer {
            mut text,
            before,
            ..
        } = self;
        if !matches!(before, Before::Nothing) {
            text.push(LINE_FEED)?;
        }
        Ok(text)
    }

    fn gap(&mut self, kind: &TokenKind) -> Result<(), NoMemory>
        ensures text { OnOk result (self.new.text.items ≡ self.old.text.items ++ gap_behind self.old.before self.old.depth kind.now) }
        ensures depth { self.new.depth ≡ self.old.depth }
        ensures before { self.new.before ≡ self.old.before }
    {
        match self.before {
            Before::Nothing | Before::Tight => Ok(()),
            Before::Line => self.new_line(kind),
            Before::Block if is_else(kind) => Ok(self.text.push(b' ')?),
            Before::Block => self.new_line(kind),
            Before::Operand | Before::Other if closes(kind) => Ok(()),
            Before::Operand | Before::Other => Ok(self.text.push(b' ')?),
        }
    }

    fn new_line(&mut self, kind: &TokenKind) -> Result<(), NoMemory>
        ensures text { OnOk result (self.new.text.items ≡ self.old.text.items ++ new_line self.old.depth kind.now) }
        ensures depth { self.new.depth ≡ self.old.depth }
        ensures before { self.new.before ≡ self.old.before }
    {
        self.text.push(LINE_FEED)?;
        let depth = if matches!(kind, TokenKind::Sign(Sign::RightBrace)) {
            self.depth.saturating_sub(1)
        } else {
            self.depth
        };
        for _level in 0..depth {
            self.text.extend_from_slice(b"  ")?;
        }
        Ok(())
    }
}

fn is_else(kind: &TokenKind) -> bool
    ensures { result ≡ is_else kind.now }
{
    matches!(kind, TokenKind::Word(Keyword::Else))
}

fn closes(kind: &TokenKind) -> bool
    ensures { result ≡ closes kind.now }
{
    matches!(
        kind,
        TokenKind::Sign(Sign::Semicolon | Sign::RightRound | Sign::LeftSquare | Sign::RightSquare)
    )
}

fn depth_behind(depth: usize, kind: &TokenKind) -> usize
    requires { depth < 2 ^ 63 }
    ensures { result ≡ depth_behind depth kind.now }
{
    match kind {
        TokenKind::Sign(Sign::LeftBrace) => depth + 1,
        TokenKind::Sign(Sign::RightBrace) => depth.saturating_sub(1),
        _ => depth,
    }
}

fn kind_before(before: Before, kind: &TokenKind) -> Before
    ensures { result ≡ kind_before before kind.now }
{
    match kind {
        TokenKind::Word(Keyword::True | Keyword::False) => Before::Operand,
        TokenKind::Word(_) => Before::Other,
        TokenKind::Name(_) | TokenKind::Number(_) => Before::Operand,
        TokenKind::Sign(sign) => sign_before(before, *sign),
    }
}

fn sign_before(before: Before, sign: Sign) -> Before
    ensures { result ≡ sign_before before sign }
{
    match sign {
        Sign::LeftBrace | Sign::Semicolon => Before::Line,
        Sign::RightBrace => Before::Block,
        Sign::LeftRound | Sign::LeftSquare => Before::Tight,
        Sign::RightRound | Sign::RightSquare => Before::Operand,
        Sign::Minus => minus_before(before),
        _ => Before::Other,
    }
}

/// A minus sign behind an operand stands between two of them; any other one belongs to what follows.
fn minus_before(before: Before) -> Before
    ensures { result ≡ minus_before before }
{
    match before {
        Before::Operand => Before::Other,
        _ => Before::Tight,
    }
}
