use crate::programs::{joined, set_of};
use std::alloc::Global;
use std::process::Abort;
use std::test::Fail;
use tcel_check::{CheckFail, CheckKind, LimitKind, check};
use tcel_core::Keep;
use tcel_num::At;
use tcel_parse::parse;
use tcel_token::tokens;

fn fault(kind: CheckKind, line: u32, column: u32) -> Option<CheckFail> {
    let at = At { line, column };
    Some(CheckFail::Fault { kind, at })
}

fn limit(kind: LimitKind, line: u32, column: u32) -> Option<CheckFail> {
    let at = At { line, column };
    Some(CheckFail::Limit { kind, at })
}

// Compares the first fault or limit of a program.
fn compare(
    rt: &(impl Abort + AllocGlobal),
    text: &[u8],
    wanted: Option<CheckFail>,
) -> Result<(), Fail> {
    assert!(rt; text.len() <= 1_048_576);
    let tokens = tokens(rt.alloc(), text)?;
    let program = parse(rt.alloc(), &tokens)?;
    let found = match check(rt.alloc(), &program) {
        Ok(_) => None,
        Err(fail) => Some(fail),
    };
    assert_eq!(rt; found, wanted, "{text:?}");
    Ok(())
}

// the first line of a program whose second line begins with statements
const HEAD: &[u8] =
    b"task t priority 1 { input s; output o; state int n = -5; local bool b; local int a[4]; every 20 {\n";

// Compares what is found in statements, on line 2.
fn compare_body(
    rt: &(impl Abort + AllocGlobal),
    body: &[u8],
    wanted: Option<CheckFail>,
) -> Result<(), Fail> {
    let text = joined(rt.alloc(), &[HEAD, body, b"\n} }"])?;
    compare(rt, &text, wanted)
}

#[test]
fn names_and_types(rt: HostRuntime) -> Result<(), Fail> {
    let cases: [(&[u8], Option<CheckFail>); 10] = [
        (b"n := n;", None),
        (b"n := s;", fault(CheckKind::WrongType, 2, 6)),
        (b"n := a;", fault(CheckKind::WrongType, 2, 6)),
        (b"send b to o;", fault(CheckKind::WrongType, 2, 6)),
        (b"if n { }", fault(CheckKind::WrongType, 2, 4)),
        (b"n := z;", fault(CheckKind::Unknown, 2, 6)),
        (b"z := true;", fault(CheckKind::Unknown, 2, 1)),
        (b"receive n from s;", None),
        (b"receive n from o;", fault(CheckKind::NotAPort, 2, 16)),
        (b"send 1 to n;", fault(CheckKind::NotAPort, 2, 11)),
    ];
    for (body, wanted) in cases {
        compare_body(&rt, body, wanted)?;
    }
    Ok(())
}

#[test]
fn loops_and_bounds(rt: HostRuntime) -> Result<(), Fail> {
    let cases: [(&[u8], Option<CheckFail>); 10] = [
        (b"for n < 0 { }", fault(CheckKind::BadBound, 2, 9)),
        (b"for n < 1 { }", None),
        (b"for n < 4096 { }", None),
        (b"for n < 4097 { }", fault(CheckKind::BadBound, 2, 9)),
        (b"do finish within 0 { }", fault(CheckKind::BadBound, 2, 18)),
        (b"do finish within 1000000000 { }", None),
        (
            b"do finish within 1000000001 { }",
            fault(CheckKind::BadBound, 2, 18),
        ),
        (
            b"for n < 2 { do { } }",
            fault(CheckKind::WindowInLoop, 2, 13),
        ),
        (b"for n < 2 { while b limit 2 { for n < 2 { } } }", None),
        (
            b"for n < 2 { for n < 2 { for n < 2 { for n < 2 { } } } }",
            fault(CheckKind::LoopDepth, 2, 37),
        ),
    ];
    for (body, wanted) in cases {
        compare_body(&rt, body, wanted)?;
    }
    Ok(())
}

// A line so many times.
fn times(alloc: Global, count: usize, line: &[u8]) -> Result<Vec<u8>, Fail> {
    let mut text = Vec::new(alloc);
    for _ in 0..count {
        text.extend_from_slice(line)?;
    }
    Ok(text)
}

#[test]
fn limits_of_a_body(rt: HostRuntime) -> Result<(), Fail> {
    let alloc = rt.alloc();
    let blocks = times(alloc, 31, b"do { }\n")?;
    compare_body(&rt, &blocks, None)?;
    let blocks = times(alloc, 32, b"do { }\n")?;
    compare_body(&rt, &blocks, limit(LimitKind::Windows, 33, 1))?;
    // a send of a number is two nodes
    let sends = times(alloc, 2000, b"send 1 to o;\n")?;
    compare_body(&rt, &sends, None)?;
    let sends = times(alloc, 2001, b"send 1 to o;\n")?;
    compare_body(&rt, &sends, limit(LimitKind::Nodes, 2002, 1))
}

// Compares what is found in a task that declares names of three letters, a line each, and behind them something more.
fn compare_names(
    rt: &(impl Abort + AllocGlobal),
    count: usize,
    more: &[u8],
    wanted: Option<CheckFail>,
) -> Result<(), Fail> {
    let mut text = joined(rt.alloc(), &[b"task t priority 1 {\n"])?;
    let letters = b"abcdefghijklmnop";
    for number in 0..count {
        let (first, second) = (letters[number / 16 % 16], letters[number % 16]);
        text.extend_from_slice(b"output p")?;
        text.extend_from_slice(&[first, second])?;
        text.extend_from_slice(b";\n")?;
    }
    text.extend_from_slice(more)?;
    text.extend_from_slice(b"every 20 { } }")?;
    compare(rt, &text, wanted)
}

#[test]
fn limits_of_declarations(rt: HostRuntime) -> Result<(), Fail> {
    compare_names(&rt, 256, b"", None)?;
    compare_names(&rt, 256, b"input q;", limit(LimitKind::Variables, 258, 7))?;
    // at its place the limit comes first
    compare_names(&rt, 256, b"input paa;", limit(LimitKind::Variables, 258, 7))?;
    compare_names(&rt, 255, b"input paa;", fault(CheckKind::Twice, 257, 7))?;
    let words: &[u8] = b"state int n; local bool b; local int a[4]; state int l[4090];";
    compare_names(&rt, 0, words, None)?;
    let words: &[u8] = b"state int n; local bool b; local int a[4]; state int l[4091];";
    compare_names(&rt, 0, words, limit(LimitKind::Words, 2, 54))
}

#[test]
fn the_first_of_several(rt: HostRuntime) -> Result<(), Fail> {
    // the 32nd `do`, in a loop: at its place the limit comes first
    let mut blocks = times(rt.alloc(), 31, b"do { }\n")?;
    blocks.extend_from_slice(b"for n < 2 { do { } }")?;
    compare_body(&rt, &blocks, limit(LimitKind::Windows, 33, 13))?;
    // a later fault of an earlier row
    compare_body(
        &rt,
        b"for n < 0 { } z := 1;",
        fault(CheckKind::BadBound, 2, 9),
    )
}

const SIXTEEN_TASKS: &[u8] = b"task a priority 1 { every 20 { } }\n\
    task b priority 2 { every 20 { } }\n\
    task c priority 3 { every 20 { } }\n\
    task d priority 4 { every 20 { } }\n\
    task e priority 5 { every 20 { } }\n\
    task f priority 6 { every 20 { } }\n\
    task g priority 7 { every 20 { } }\n\
    task h priority 8 { every 20 { } }\n\
    task i priority 9 { every 20 { } }\n\
    task j priority 10 { every 20 { } }\n\
    task k priority 11 { every 20 { } }\n\
    task l priority 12 { every 20 { } }\n\
    task m priority 13 { every 20 { } }\n\
    task n priority 14 { every 20 { } }\n\
    task o priority 15 { every 20 { } }\n\
    task p priority 16 { every 20 { } }\n";

#[test]
fn several_tasks(rt: HostRuntime) -> Result<(), Fail> {
    compare(&rt, SIXTEEN_TASKS, None)?;
    let more = joined(
        rt.alloc(),
        &[SIXTEEN_TASKS, b"task q priority 17 { every 20 { } }"],
    )?;
    compare(&rt, &more, limit(LimitKind::Tasks, 17, 6))?;
    // the output is the first task's own
    compare(
        &rt,
        b"task t priority 3 { output o; every 20 { } }\ntask u priority 4 { every 20 { send 1 to o; } }",
        fault(CheckKind::Unknown, 2, 42),
    )
}

#[test]
fn a_set_in_falling_priority(rt: HostRuntime) -> Result<(), Fail> {
    let text: &[u8] =
        b"task t priority 3 { output o; local bool b; state int n; every 20 { send n to o; } }\
        task u priority 7 { every 20 { } }";
    let set = set_of(rt.alloc(), text)?;
    assert_eq!(rt; set.tasks.len(), 2);
    match set.tasks.as_slice() {
        [first, second] => {
            assert_eq!(rt; first.name.bytes(), b"u".as_slice());
            assert_eq!(rt; second.priority, 3);
            assert_eq!(rt; second.finish, 20);
            assert_eq!(rt; second.vars.len(), 2);
            assert_eq!(rt; second.vars.as_slice()[0].keep, Keep::State);
            assert_eq!(rt; second.body.list.len(), 1);
        }
        _ => {}
    }
    Ok(())
}
