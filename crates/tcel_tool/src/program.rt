ghost use Rattle.std.specs.Prelude.{◌≡◌, ◌≤◌, [], IfErr, IfOk, OnOk, length};
ghost use Rattle.tcel_check.specs.Answers.{IsCheckable};
ghost use Rattle.tcel_check.specs.Checked.{set_of};
ghost use Rattle.tcel_check.specs.Rows.{marks};
ghost use Rattle.tcel_core.specs.Plain.{plain_set};
ghost use Rattle.tcel_core.specs.Sound.{IsSoundSet};
ghost use Rattle.tcel_tool.specs.Answer.{OrMemory};
ghost use Rattle.tcel_tool.specs.CheckCommand.{RefusesTasks};
ghost use Rattle.tcel_tool.specs.ProgramText.{IsGrammatical, IsProgramText, RefusesText};
ghost use Rattle.tcel_tree.specs.Plain.{plain_program};
ghost use Rattle.tcel_grammar.specs.Faults.{IsAccepted};
ghost use Rattle.tcel_token.specs.Terminal.{terminals};

use crate::status::{LimitFault, ProgramKind, Status};
use std::alloc::Global;
use tcel_check::{CheckFail, check};
use tcel_core::Set;
use tcel_parse::{Deep, ParseFail, parse};
use tcel_token::{LexFail, Tokens, tokens};
use tcel_tree::Program;

/// The most bytes of a program.
pub(crate) const PROGRAM_LIMIT: usize = 1_048_576;

/// The program that the text is.
pub(crate) fn program_of(alloc: Global, text: &[u8]) -> Result<Program, Status>
    requires { length text.now ≤ 1048576 }
    ensures program { IfOk result (λ program. IsProgramText text.now (plain_program program)) }
    ensures refusal { IfErr result (OrMemory (RefusesText text.now)) }
{
    match tokens(alloc, text) {
        Ok(tokens) => parsed(alloc, &tokens),
        Err(LexFail::BadByte { at }) => Err(Status::Program {
            kind: ProgramKind::BadByte,
            at,
        }),
        Err(LexFail::BadNumber { at }) => Err(Status::Program {
            kind: ProgramKind::BadNumber,
            at,
        }),
        Err(LexFail::NameTooLong { at }) => Err(Status::Program {
            kind: ProgramKind::NameTooLong,
            at,
        }),
        Err(LexFail::NoMemory) => Err(Status::NoMemory),
    }
}

/// The program that the tokens are.
fn parsed(alloc: Global, tokens: &Tokens) -> Result<Program, Status>
    ensures program { IfOk result (λ program. IsAccepted (terminals tokens.now.list) (plain_program program)) }
    ensures refusal { IfErr result (OrMemory (IsGrammatical tokens.now)) }
{
    match parse(alloc, tokens) {
        Ok(program) => Ok(program),
        Err(ParseFail::Syntax { at }) => Err(Status::Program {
            kind: ProgramKind::Unexpected,
            at,
        }),
        Err(
            ParseFail::TooDeep {
                at,
                what: Deep::Nesting,
            },
        ) => Err(Status::Limit(LimitFault::Nesting { at })),
        Err(
            ParseFail::TooDeep {
                at,
                what: Deep::Operators,
            },
        ) => Err(Status::Limit(LimitFault::Operators { at })),
        Err(ParseFail::NoMemory) => Err(Status::NoMemory),
    }
}

/// The core tasks of the program; its first fault or limit is refused.
pub(crate) fn set_of(alloc: Global, program: &Program) -> Result<Set, Status>
    ensures free { OnOk result (marks (plain_program program.now) ≡ []) }
    ensures set { IfOk result (λ set. plain_set set ≡ set_of (plain_program program.now)) }
    ensures sound { IsCheckable (plain_program program.now) → IfOk result (λ set. IsSoundSet (plain_set set)) }
    ensures refusal { IfErr result (OrMemory (RefusesTasks (plain_program program.now))) }
{
    match check(alloc, program) {
        Ok(set) => Ok(set),
        Err(CheckFail::Fault { kind, at }) => Err(Status::Program {
            kind: ProgramKind::Check(kind),
            at,
        }),
        Err(CheckFail::Limit { kind, at }) => Err(Status::Limit(LimitFault::Placed { kind, at })),
        Err(CheckFail::NoMemory) => Err(Status::NoMemory),
    }
}
