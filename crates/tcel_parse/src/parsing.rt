ghost use Rattle.std.specs.Prelude.{◌≡◌, Err, IfOk};
ghost use Rattle.tcel_grammar.specs.Faults.{IsAccepted, IsSyntaxFault, IsDepthFault, place_of};
ghost use Rattle.tcel_num.specs.declared.at.At.{At};
ghost use Rattle.tcel_token.specs.Terminal.{terminals};
ghost use Rattle.tcel_tree.specs.Plain.{plain_program};
ghost use Rattle.tcel_grammar.specs.declared.deep.Deep.{Deep};
ghost use Rattle.tcel_parse.specs.Reading.{left, fault_of};
ghost use Rattle.tcel_parse.specs.declared.fail.ParseFail.{ParseFail};

use crate::fail::{ParseFail, Stop};
use crate::parser::Parser;
use std::alloc::Global;
use tcel_num::At;
use tcel_token::Tokens;
use tcel_tree::Program;

/// The tree of the program that the tokens are. Syntax is at the first token such that no program begins with the tokens up to it, or
/// at the text's end; TooDeep is at the first token that is the 33rd unclosed bracket or the 65th operator of an outermost
/// expression; the earlier of both is answered (docs/language.md).
pub fn parse(alloc: Global, tokens: &Tokens) -> Result<Program, ParseFail>
    ensures ok { IfOk result (λ p. IsAccepted (terminals tokens.now.list) (plain_program p)) }
    ensures syntax { (at : At) → result ≡ Err (ParseFail.Syntax at) → IsSyntaxFault (terminals tokens.now.list) tokens.now.end at }
    ensures deep { (at : At) (what : Deep) → result ≡ Err (ParseFail.TooDeep at what) → IsDepthFault (terminals tokens.now.list) what at }
{
    let mut parser = Parser {
        rest: tokens.list.as_slice(),
        brackets: 0,
        operators: 0,
        alloc,
    };
    match parser.program() {
        Ok(program) => Ok(program),
        Err(stop) => Err(parser.fault(stop, tokens.end)),
    }
}

impl Parser<'_> {
    /// The place of the first token that is left, or the text's end.
    fn place(&self, end: At) -> At
        ensures { result ≡ place_of (left self.now) end }
    {
        match self.rest {
            [first, ..] => first.at,
            [] => end,
        }
    }

    /// The fault of a text in which the parser stopped here.
    fn fault(&self, stop: Stop, end: At) -> ParseFail
        ensures { result ≡ fault_of stop (place_of (left self.now) end) }
    {
        let at = self.place(end);
        match stop {
            Stop::Syntax => ParseFail::Syntax { at },
            Stop::TooDeep(what) => ParseFail::TooDeep { at, what },
            Stop::NoMemory => ParseFail::NoMemory,
        }
    }
}
