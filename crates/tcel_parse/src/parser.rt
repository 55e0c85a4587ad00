ghost use Rattle.std.specs.Prelude.{◌≡◌, ◌<◌, [], ◌∷◌, true, pos, IfOk, OnOk, MatchResult};
ghost use Rattle.tcel_grammar.specs.Machine.{enter, within_limits, too_deep, is_word, is_sign, is_name, is_numeral};
ghost use Rattle.tcel_grammar.specs.declared.deep.Deep.{Deep};
ghost use Rattle.tcel_parse.specs.declared.fail.Stop.{Stop};
ghost use Rattle.tcel_parse.specs.Reading.{left, counts, sees, is_done, Gives, Takes, TakesKind, IsHead, GoesOn};
ghost use Rattle.tcel_grammar.specs.Expressions.{IsPlaced, IsToken};
ghost use Rattle.tcel_grammar.specs.Statements.{IsNumber};
ghost use Rattle.tcel_grammar.specs.Machine.{this_word, this_sign, any_name, any_number};
ghost use Rattle.tcel_token.specs.declared.token.TokenKind.{TokenKind};

use crate::fail::Stop;
use crate::kinds::{
    is_border, is_closing, is_name, is_number, is_opening, is_operator, is_sign, is_word,
};
use std::alloc::Global;
use tcel_grammar::Deep;
use tcel_num::{At, Name};
use tcel_token::{Keyword, Sign, Token, TokenKind};
use tcel_tree::Placed;

const MOST_BRACKETS: u32 = 32;

const MOST_OPERATORS: u32 = 64;

/// A parser: the tokens that are left, the brackets that are open, and the operators so far of the outermost expression.
/// After a stop it stands at the token where it stopped.
#[derive(Drop)]
pub(crate) struct Parser<'a> {
    pub(crate) rest: &'a [Token],
    pub(crate) brackets: u32,
    pub(crate) operators: u32,
    pub(crate) alloc: Global,
}

/// A name and its place.
#[derive(Clone, Copy, Debug)]
pub(crate) struct Named {
    pub(crate) name: Name,
    pub(crate) at: At,
}

impl Parser<'_> {
    pub(crate) fn sees_word(&self, word: Keyword) -> bool
        ensures { result ≡ sees (is_word word) (left self.now) }
    {
        match self.rest {
            [first, ..] => is_word(&first.kind, word),
            [] => false,
        }
    }

    pub(crate) fn sees_sign(&self, sign: Sign) -> bool
        ensures { result ≡ sees (is_sign sign) (left self.now) }
    {
        match self.rest {
            [first, ..] => is_sign(&first.kind, sign),
            [] => false,
        }
    }

    pub(crate) fn sees_name(&self) -> bool
        ensures { result ≡ sees is_name (left self.now) }
    {
        match self.rest {
            [first, ..] => is_name(&first.kind),
            [] => false,
        }
    }

    pub(crate) fn sees_number(&self) -> bool
        ensures { result ≡ sees is_numeral (left self.now) }
    {
        match self.rest {
            [first, ..] => is_number(&first.kind),
            [] => false,
        }
    }

    /// Whether no token is left.
    pub(crate) fn is_done(&self) -> bool
        ensures { result ≡ is_done (left self.now) }
    {
        match self.rest {
            [_, ..] => false,
            [] => true,
        }
    }

    /// Counts the token, unless it is too deep.
    fn enter(&mut self, kind: &TokenKind) -> Result<(), Stop>
        ensures cases { MatchResult result (λ _. enter (counts self.old) kind.now ≡ within_limits (counts self.new))
            (λ stop. (what : Deep) × (stop ≡ Stop.TooDeep what) × (enter (counts self.old) kind.now ≡ too_deep what)) }
        ensures rest { self.new.rest ≡ self.old.rest }
    {
        if is_opening(kind) {
            if self.brackets >= MOST_BRACKETS {
                return Err(Stop::TooDeep(Deep::Nesting));
            }
            self.brackets += 1;
        } else if is_closing(kind) {
            self.brackets = self.brackets.saturating_sub(1);
        }
        if is_border(kind) {
            self.operators = 0;
        } else if is_operator(kind) {
            if self.operators >= MOST_OPERATORS {
                return Err(Stop::TooDeep(Deep::Operators));
            }
            self.operators += 1;
        }
        Ok(())
    }

    /// Takes the first token, unless it is too deep.
    pub(crate) fn take(&mut self) -> Result<At, Stop>
        ensures head { IfOk result (λ at. IsHead (left self.old) at (left self.new)) }
        ensures run { Takes result self.old self.new }
        ensures onward { OnOk result (GoesOn self.old self.new) }
    {
        match self.rest {
            [first, rest @ ..] => {
                self.enter(&first.kind)?;
                self.rest = rest;
                Ok(first.at)
            }
            [] => Err(Stop::Syntax),
        }
    }

    /// Takes this word, which stands here.
    #[tactic(auto, using(crate::proofs::Heads::word_head, crate::proofs::Heads::takes_word))]
    pub(crate) fn take_word(&mut self, word: Keyword) -> Result<At, Stop>
        requires { sees (is_word word) (left self.old) ≡ true }
        ensures tree { IfOk result (λ at. IsPlaced (TokenKind.Word word) (left self.old) at (left self.new)) }
        ensures run { TakesKind (TokenKind.Word word) result self.old self.new }
        ensures onward { OnOk result (GoesOn self.old self.new) }
    {
        self.take()
    }

    /// Takes this sign, which stands here.
    #[tactic(auto, using(crate::proofs::Heads::sign_head, crate::proofs::Heads::takes_sign))]
    pub(crate) fn take_sign(&mut self, sign: Sign) -> Result<At, Stop>
        requires { sees (is_sign sign) (left self.old) ≡ true }
        ensures tree { IfOk result (λ at. IsPlaced (TokenKind.Sign sign) (left self.old) at (left self.new)) }
        ensures run { TakesKind (TokenKind.Sign sign) result self.old self.new }
        ensures onward { OnOk result (GoesOn self.old self.new) }
    {
        self.take()
    }

    /// Takes a name, which stands here.
    #[tactic(auto, using(crate::proofs::Heads::takes_name))]
    pub(crate) fn take_name(&mut self) -> Result<Named, Stop>
        requires { sees is_name (left self.old) ≡ true }
        ensures tree { IfOk result (λ n. IsPlaced (TokenKind.Name n.name) (left self.old) n.at (left self.new)) }
        ensures run { TakesKind (TokenKind.Name []) result self.old self.new }
        ensures onward { OnOk result (GoesOn self.old self.new) }
    {
        match self.rest {
            [
                Token {
                    kind: TokenKind::Name(name),
                    ..
                },
                ..
            ] => {
                let at = self.take()?;
                Ok(Named { name: *name, at })
            }
            _ => Err(Stop::Syntax),
        }
    }

    /// Takes a number, which stands here.
    #[tactic(auto, using(crate::proofs::Heads::takes_number))]
    pub(crate) fn take_number(&mut self) -> Result<Placed, Stop>
        requires { sees is_numeral (left self.old) ≡ true }
        ensures tree { IfOk result (λ n. IsNumber (left self.old) n (left self.new)) }
        ensures run { TakesKind (TokenKind.Number (pos 0)) result self.old self.new }
        ensures onward { OnOk result (GoesOn self.old self.new) }
    {
        match self.rest {
            [first, ..] => match first.kind {
                TokenKind::Number(value) => {
                    let at = self.take()?;
                    Ok(Placed { value, at })
                }
                _ => Err(Stop::Syntax),
            },
            [] => Err(Stop::Syntax),
        }
    }

    /// Takes this word, or stops.
    pub(crate) fn expect_word(&mut self, word: Keyword) -> Result<(), Stop>
        ensures tree { OnOk result (IsToken (TokenKind.Word word) (left self.old) (left self.new)) }
        ensures run { Gives result self.old self.new (this_word word ∷ []) [] }
        ensures onward { OnOk result (GoesOn self.old self.new) }
    {
        if !self.sees_word(word) {
            return Err(Stop::Syntax);
        }
        self.take_word(word)?;
        Ok(())
    }

    /// Takes this sign, or stops.
    pub(crate) fn expect_sign(&mut self, sign: Sign) -> Result<(), Stop>
        ensures tree { OnOk result (IsToken (TokenKind.Sign sign) (left self.old) (left self.new)) }
        ensures run { Gives result self.old self.new (this_sign sign ∷ []) [] }
        ensures onward { OnOk result (GoesOn self.old self.new) }
    {
        if !self.sees_sign(sign) {
            return Err(Stop::Syntax);
        }
        self.take_sign(sign)?;
        Ok(())
    }

    /// Takes a name, or stops.
    pub(crate) fn expect_name(&mut self) -> Result<Named, Stop>
        ensures tree { IfOk result (λ n. IsPlaced (TokenKind.Name n.name) (left self.old) n.at (left self.new)) }
        ensures run { Gives result self.old self.new (any_name ∷ []) [] }
        ensures onward { OnOk result (GoesOn self.old self.new) }
    {
        if !self.sees_name() {
            return Err(Stop::Syntax);
        }
        self.take_name()
    }

    /// Takes a number, or stops.
    pub(crate) fn expect_number(&mut self) -> Result<Placed, Stop>
        ensures tree { IfOk result (λ n. IsNumber (left self.old) n (left self.new)) }
        ensures run { Gives result self.old self.new (any_number ∷ []) [] }
        ensures onward { OnOk result (GoesOn self.old self.new) }
    {
        if !self.sees_number() {
            return Err(Stop::Syntax);
        }
        self.take_number()
    }
}
