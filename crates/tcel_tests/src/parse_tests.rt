ghost use Rattle.std.specs.Prelude.{◌≤◌, length};

use crate::programs::joined;
use std::alloc::Global;
use std::test::Fail;
use tcel_num::At;
use tcel_parse::{Deep, ParseFail, parse};
use tcel_token::tokens;

/// The fault of a text that has tokens, if it has one.
fn fault(alloc: Global, text: &[u8]) -> Result<Option<ParseFail>, Fail>
    requires { length text.now ≤ 1048576 }
{
    let list = tokens(alloc, text)?;
    match parse(alloc, &list) {
        Ok(_program) => Ok(None),
        Err(fail) => Ok(Some(fail)),
    }
}

fn unexpected(column: u32) -> Option<ParseFail> {
    Some(ParseFail::Syntax {
        at: At { line: 1, column },
    })
}

#[test]
fn each_form_of_a_declaration_is_read(rt: HostRuntime) -> Result<(), Fail> {
    let forms: [&[u8]; 12] = [
        b"input s;",
        b"output o;",
        b"local int x;",
        b"local int a[3];",
        b"local bool b;",
        b"state int n;",
        b"state int a[3];",
        b"state int n = 5;",
        b"state int n = -5;",
        b"state bool b;",
        b"state bool b = true;",
        b"state bool b = false;",
    ];
    for form in forms {
        let text = joined(
            rt.alloc(),
            &[
                b"task t priority 1 { ",
                form,
                b" every 9 finish within 5 { } }",
            ],
        )?;
        assert!(rt; text.len() <= 1_048_576);
        assert!(rt; fault(rt.alloc(), &text)? == None);
    }
    Ok(())
}

#[test]
fn each_form_of_a_statement_is_read(rt: HostRuntime) -> Result<(), Fail> {
    let forms: [&[u8]; 18] = [
        b"",
        b"x := 1;",
        b"a[1 + i] := 2;",
        b"receive x from p;",
        b"send x to o;",
        b"if x { }",
        b"if x { } else { x := 1; }",
        b"for i < 3 { }",
        b"while x limit 3 { }",
        b"do { }",
        b"do start after 1 { }",
        b"do start before 2 { }",
        b"do finish within 3 { }",
        b"do start after 1 start before 2 { }",
        b"do start after 1 finish within 3 { }",
        b"do start before 2 finish within 3 { }",
        b"do start after 1 start before 2 finish within 3 { }",
        b"x := true and not b or false == (d + 1 * -a[i] / 2 % 3 - 4 < 5);",
    ];
    for form in forms {
        let text = joined(
            rt.alloc(),
            &[b"task t priority 1 { every 9 { ", form, b" } }"],
        )?;
        assert!(rt; text.len() <= 1_048_576);
        assert!(rt; fault(rt.alloc(), &text)? == None);
    }
    Ok(())
}

#[test]
fn faults_of_declarations_have_their_places(rt: HostRuntime) -> Result<(), Fail> {
    let cases: [(&[u8], u32); 7] = [
        (b"state int a[3] = 1;", 36),
        (b"local int x = 1;", 33),
        (b"state bool b = 1;", 36),
        (b"state int n = - -1;", 37),
        (b"input s[3];", 28),
        (b"local bool b[2];", 33),
        (b"local x;", 27),
    ];
    for (form, column) in cases {
        let text = joined(
            rt.alloc(),
            &[b"task t priority 1 { ", form, b" every 9 { } }"],
        )?;
        assert!(rt; text.len() <= 1_048_576);
        assert!(rt; fault(rt.alloc(), &text)? == unexpected(column));
    }
    Ok(())
}

#[test]
fn faults_of_statements_have_their_places(rt: HostRuntime) -> Result<(), Fail> {
    let cases: [(&[u8], u32); 15] = [
        (b"x := - -1;", 38),
        (b"x := not not true;", 40),
        (b"x := 1 < 2 < 3;", 42),
        (b"x := ;", 36),
        (b"x := 1", 38),
        (b"x[1] = 2;", 36),
        (b"task := 1;", 31),
        (b"receive x to p;", 41),
        (b"send 1 o;", 38),
        (b"if x { } else if y { }", 45),
        (b"for i <= 3 { }", 37),
        (b"while x { }", 39),
        (b"do start before 2 start after 1 { }", 49),
        (b"do finish within 3 start after 1 { }", 50),
        (b"do start after 1 start after 2 { }", 54),
    ];
    for (form, column) in cases {
        let text = joined(
            rt.alloc(),
            &[b"task t priority 1 { every 9 { ", form, b" } }"],
        )?;
        assert!(rt; text.len() <= 1_048_576);
        assert!(rt; fault(rt.alloc(), &text)? == unexpected(column));
    }
    Ok(())
}

#[test]
fn an_empty_text_is_refused_at_its_end(rt: HostRuntime) -> Result<(), Fail> {
    assert!(rt; fault(rt.alloc(), b"")? == unexpected(1));
    assert!(rt; fault(rt.alloc(), b"   ")? == unexpected(4));
    assert!(rt; fault(rt.alloc(), b"task t priority 1 { every 9 { }")? == unexpected(32));
    Ok(())
}

/// `send`, some brackets round a 1, `to o;`
fn nested(alloc: Global, brackets: usize) -> Result<Vec<u8>, Fail> {
    let mut text = Vec::from_slice(alloc, b"task t priority 1 { output o; every 9 { send ")?;
    for _ in 0..brackets {
        text.push(b'(')?;
    }
    text.push(b'1')?;
    for _ in 0..brackets {
        text.push(b')')?;
    }
    text.extend_from_slice(b" to o; } }")?;
    Ok(text)
}

/// `send`, some ones joined by ` + `, `to o;`
fn summed(alloc: Global, ones: usize) -> Result<Vec<u8>, Fail> {
    let mut text = Vec::from_slice(alloc, b"task t priority 1 { output o; every 9 { send 1")?;
    for _ in 1..ones {
        text.extend_from_slice(b" + 1")?;
    }
    text.extend_from_slice(b" to o; } }")?;
    Ok(text)
}

#[test]
fn limits_are_met_and_passed(rt: HostRuntime) -> Result<(), Fail> {
    let nesting = ParseFail::TooDeep {
        at: At {
            line: 1,
            column: 76,
        },
        what: Deep::Nesting,
    };
    let operators = ParseFail::TooDeep {
        at: At {
            line: 1,
            column: 304,
        },
        what: Deep::Operators,
    };
    let cases = [
        (nested(rt.alloc(), 30)?, None),
        (nested(rt.alloc(), 31)?, Some(nesting)),
        (summed(rt.alloc(), 65)?, None),
        (summed(rt.alloc(), 66)?, Some(operators)),
    ];
    for (text, wanted) in cases {
        assert!(rt; text.len() <= 1_048_576);
        assert!(rt; fault(rt.alloc(), &text)? == wanted);
    }
    Ok(())
}

const COUNTER: &[u8] = b"task t priority 1 { input s; output o; state int n; local int x; \
    every 10 { receive x from s; send x to o; n := n + 1; } }\n";

#[test]
fn only_whole_programs_are_read(rt: HostRuntime) -> Result<(), Fail> {
    assert!(rt; COUNTER.len() <= 1_048_576);
    assert!(rt; fault(rt.alloc(), COUNTER)? == None);
    for length in 0..COUNTER.len() - 1 {
        let front = &COUNTER[..length];
        assert!(rt; front.len() <= 1_048_576);
        let is_read = match tokens(rt.alloc(), front) {
            Ok(list) => parse(rt.alloc(), &list).is_ok(),
            Err(_fail) => false,
        };
        assert!(rt; !is_read, "{length} bytes");
    }
    Ok(())
}
