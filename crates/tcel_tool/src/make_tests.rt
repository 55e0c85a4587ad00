use crate::status::Status;
use crate::tests::{COMPILE, Fails, NONE, UNIT, run};
use std::test::Fail;

/// The program of two tasks of seed 1.
const TWO_TASKS: &str =
    "task t0 priority 100 {\n  input s;\n  output o;\n  state int n;\n  local int x;\n  local int i;\n  \
    every 4000 finish within 100 {\n    receive x from s;\n    send x + 0 to o;\n    for i < 2 {\n      \
    n := n + x;\n    }\n    n := n + x;\n    n := n + x;\n    n := n + x;\n    n := n + x;\n    n := n + x;\n    \
    n := n + x;\n    n := n + x;\n    n := n + x;\n    n := n + x;\n    n := n + x;\n    n := n + x;\n    \
    n := n + x;\n    n := n + x;\n    n := n + x;\n    n := n + x;\n    n := n + x;\n    n := n + x;\n    \
    n := n + x;\n    n := n + x;\n    n := n + x;\n  }\n}\ntask t1 priority 99 {\n  input s;\n  output o;\n  \
    state int n;\n  local int x;\n  local int i;\n  every 8000 finish within 240 {\n    receive x from s;\n    \
    send x + 1 to o;\n    for i < 5 {\n      n := n + x;\n    }\n    n := n + x;\n    n := n + x;\n    \
    n := n + x;\n    n := n + x;\n    n := n + x;\n    n := n + x;\n    n := n + x;\n    n := n + x;\n    \
    n := n + x;\n    n := n + x;\n    n := n + x;\n    n := n + x;\n    n := n + x;\n    n := n + x;\n    \
    n := n + x;\n    n := n + x;\n    n := n + x;\n    n := n + x;\n    n := n + x;\n    n := n + x;\n  }\n}\n";

/// Words that a program isn't made for, with the exit status and the fault line.
const REFUSED: [(&[&str], u8, &str); 6] = [
    (&["make", "5", "0"], 4, "words: no command has this form\n"),
    (&["make", "5", "00"], 4, "words: no command has this form\n"),
    (&["make", "-5", "1"], 4, "words: no command has this form\n"),
    (
        &["make", "1000000000000000000", "1"],
        4,
        "words: no command has this form\n",
    ),
    (&["make", "5", "017"], 3, "limit: made tasks 17 above 16\n"),
    (
        &["make", "0", "999999999999999999"],
        3,
        "limit: made tasks 999999999999999999 above 16\n",
    ),
];

#[test]
fn makes_two_tasks(rt: HostRuntime) -> Result<(), Fail> {
    let fails = Fails { room: 3000, ..NONE };
    let left = run(rt.alloc(), &["make", "1", "2"], (b"", b""), fails)?;
    assert_eq!(rt; left.out.bytes(), TWO_TASKS.as_bytes());
    assert_eq!(rt; left.err.bytes(), b"".as_slice());
    assert_eq!(rt; left.status, Status::Ok);
    let image = run(
        rt.alloc(),
        &COMPILE,
        (TWO_TASKS.as_bytes(), UNIT),
        Fails {
            room: 10000,
            ..NONE
        },
    )?;
    assert_eq!(rt; image.status, Status::Ok);
    Ok(())
}

#[test]
fn counts_the_tasks_before_it_makes_them(rt: HostRuntime) -> Result<(), Fail> {
    for (words, code, line) in REFUSED {
        let left = run(rt.alloc(), words, (b"", b""), NONE)?;
        assert_eq!(rt; left.status.code(), code);
        assert_eq!(rt; left.err.bytes(), line.as_bytes());
        assert_eq!(rt; left.out.bytes(), b"".as_slice());
    }
    Ok(())
}
