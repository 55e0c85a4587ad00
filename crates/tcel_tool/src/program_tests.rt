use crate::status::Status;
use crate::tests::{ECHO, Fails, Left, NONE, run};
use std::alloc::{AllocError, Global};
use std::process::Abort;
use std::test::Fail;
use tcel_io::PutFail;

/// The commands that read any program.
const COMMANDS: [&str; 2] = ["check", "format"];

/// What stands in front of the expression that a program sends, and behind it.
const BEFORE: &str = "task t priority 1 { output o; every 9 { send ";

const BEHIND: &str = " to o; } }";

/// Calls this command, with the file `p` of these bytes.
fn call(alloc: Global, command: &str, text: &[u8], fails: Fails) -> Result<Left, Fail> {
    run(alloc, &[command, "p"], (text, b""), fails)
}

/// Compares what a call of this command leaves, where the output has room for 3000 bytes.
pub(crate) fn compare_call(
    rt: &(impl Abort + AllocGlobal),
    command: &str,
    text: &[u8],
    code: u8,
    (out, err): (&[u8], &[u8]),
) -> Result<(), Fail> {
    let fails = Fails { room: 3000, ..NONE };
    let left = call(rt.alloc(), command, text, fails)?;
    assert_eq!(rt; left.err.bytes(), err);
    assert_eq!(rt; left.out.bytes(), out);
    assert_eq!(rt; left.status.code(), code);
    Ok(())
}

/// Compares how each of the commands refuses a text.
fn refuse(rt: &(impl Abort + AllocGlobal), text: &[u8], code: u8, line: &[u8]) -> Result<(), Fail> {
    for command in COMMANDS {
        compare_call(rt, command, text, code, (b"", line))?;
    }
    Ok(())
}

/// Compares what each of them writes for a program without faults.
pub(crate) fn accept(
    rt: &(impl Abort + AllocGlobal),
    text: &[u8],
    canonical: &[u8],
) -> Result<(), Fail> {
    compare_call(rt, "check", text, 0, (b"ok\n", b""))?;
    compare_call(rt, "format", text, 0, (canonical, b""))
}

/// So many copies of a text.
fn copies(alloc: Global, count: usize, text: &str) -> Result<String, AllocError> {
    let mut all = String::new(alloc);
    for _ in 0..count {
        all.push_str(text)?;
    }
    Ok(all)
}

/// The program that sends this expression.
fn sends(alloc: Global, expr: &str) -> Result<String, AllocError> {
    format!(in alloc; "{BEFORE}{expr}{BEHIND}")
}

#[test]
fn refuses_texts_that_are_no_program(rt: HostRuntime) -> Result<(), Fail> {
    let rows = [
        ("", "program 1:1: unexpected token\n"),
        (
            "task t priority 9223372036854775808",
            "program 1:17: bad number\n",
        ),
        (
            "task t priority 1 { every 9 { x := - -1; } }",
            "program 1:38: unexpected token\n",
        ),
        (
            "task nnnnnnnnnnnnnnnnnnnnnnnnnnnnnnnnn priority 1 { every 9 { } }",
            "program 1:6: name too long\n",
        ),
        ("task t priority 1 { ? }", "program 1:21: bad byte\n"),
        (
            "task t priority 1 { every 9 { x : = 1; } }",
            "program 1:33: bad byte\n",
        ),
        (
            "task t priority 1 { every 9 { x := y ! z; } }",
            "program 1:38: bad byte\n",
        ),
        (
            "task t priority 1 { every 9 { if x { } else if y { } } }",
            "program 1:45: unexpected token\n",
        ),
        (
            "task t priority 1 { every 9 { do start before 2 start after 1 { } } }",
            "program 1:49: unexpected token\n",
        ),
        (
            "task t priority 1 { every 9 { do finish within 3 start before 2 { } } }",
            "program 1:50: unexpected token\n",
        ),
        (
            "task t priority 1 {\n  state int a[3] = 1;\n",
            "program 2:18: unexpected token\n",
        ),
        (
            "task t priority 1 {\r\n\tlocal int x = 1;\r\n",
            "program 2:14: unexpected token\n",
        ),
        (
            "task t priority 1 {\n  every 9 {\n  }\n} // no second brace\n}",
            "program 5:1: unexpected token\n",
        ),
        (
            "task t priority 1 { every 9 { } ",
            "program 1:33: unexpected token\n",
        ),
        (
            "task t priority 1 { every 9 { } // a comment\n",
            "program 2:1: unexpected token\n",
        ),
        (
            "task if priority 1 { every 9 { } }",
            "program 1:6: unexpected token\n",
        ),
    ];
    for (text, line) in rows {
        refuse(&rt, text.as_bytes(), 2, line.as_bytes())?;
    }
    let mut bytes = Vec::new(rt.alloc());
    for byte in 0..=255u8 {
        bytes.push(byte)?;
    }
    refuse(&rt, &bytes, 2, b"program 1:1: bad byte\n")
}

#[test]
fn bounds_brackets_and_operators(rt: HostRuntime) -> Result<(), Fail> {
    let alloc = rt.alloc();
    let open = copies(alloc, 30, "(")?;
    let close = copies(alloc, 30, ")")?;
    let nested = format!(in alloc; "{open}1{close}")?;
    let canonical = b"task t priority 1 {\n  output o;\n  every 9 {\n    send 1 to o;\n  }\n}\n";
    accept(&rt, sends(alloc, &nested)?.as_bytes(), canonical)?;
    let deep = format!(in alloc; "{BEFORE}{open}(")?;
    let nesting = b"limit: nesting above 32 at 1:76\n";
    refuse(&rt, deep.as_bytes(), 3, nesting)?;
    let sum = format!(in alloc; "{}1", copies(alloc, 64, "1 + ")?)?;
    let printed = format!(in alloc;
        "task t priority 1 {{\n  output o;\n  every 9 {{\n    send {sum} to o;\n  }}\n}}\n"
    )?;
    accept(&rt, sends(alloc, &sum)?.as_bytes(), printed.as_bytes())?;
    let longer = format!(in alloc; "1 + {sum}")?;
    let operators = b"limit: operators above 64 at 1:304\n";
    refuse(&rt, sends(alloc, &longer)?.as_bytes(), 3, operators)
}

#[test]
fn accepts_the_example_and_no_prefix(rt: HostRuntime) -> Result<(), Fail> {
    accept(&rt, ECHO, ECHO)?;
    let (_, shorter) = ECHO.split_last().ok_or("empty")?;
    accept(&rt, shorter, ECHO)?;
    for length in 0..shorter.len() {
        for command in COMMANDS {
            let left = call(rt.alloc(), command, &shorter[..length], NONE)?;
            assert_eq!(rt; left.status.code(), 2);
            assert!(rt; left.err.bytes().starts_with(b"program "));
            assert!(rt; left.out.bytes().is_empty());
        }
    }
    Ok(())
}

#[test]
fn bounds_the_bytes_of_a_program(rt: HostRuntime) -> Result<(), Fail> {
    let mut text = vec![in rt.alloc(); b' '; 1_048_576]?;
    refuse(&rt, &text, 2, b"program 1:1048577: unexpected token\n")?;
    text.push(b' ').map_err(|_| "memory")?;
    refuse(&rt, &text, 3, b"limit: bytes of p above 1048576\n")
}

#[test]
fn stops_at_a_fault_of_a_file_or_the_output(rt: HostRuntime) -> Result<(), Fail> {
    for (command, written) in [("check", "o"), ("format", "t")] {
        let fails = Fails {
            out: Some(PutFail { call: 1, taken: 1 }),
            ..NONE
        };
        let left = call(rt.alloc(), command, ECHO, fails)?;
        assert_eq!(rt; left.status, Status::WriteFault);
        assert_eq!(rt; left.out.bytes(), written.as_bytes());
        let fails = Fails {
            load: Some(1),
            ..NONE
        };
        let left = call(rt.alloc(), command, ECHO, fails)?;
        assert_eq!(rt; left.status, Status::ReadFault { word: 1 });
        assert_eq!(rt; left.err.bytes(), b"read fault: p\n".as_slice());
        let more = run(rt.alloc(), &[command, "p", "t"], (ECHO, b""), NONE)?;
        assert_eq!(rt; more.status, Status::Words);
    }
    Ok(())
}
