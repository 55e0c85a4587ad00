use crate::tests::{ECHO, NONE, run_four};
use std::test::Fail;

/// Scripts, traces and numbers of ticks over the example, with what `judge` leaves of them: standard output, standard
/// error and the exit status.
const EXAMPLE: [(&str, &str, &str, &str, &str, u8); 8] = [
    (
        "t s 5 6\n",
        "1 t 0 receive s 5\n3 t 0 send o 5\n8 t 0 first\n9 t 0 end n=1\n",
        "10",
        "yes\n",
        "",
        0,
    ),
    ("q\n", "x\n", "10", "", "script 1: bad line\n", 10),
    (
        "",
        "1 t 0 receive s 0\n2 t 0 send o 0",
        "10",
        "",
        "trace 2: bad line\n",
        13,
    ),
    (
        "t s 5\n",
        "1 t 0 receive s 5\n3 t 0 send o 6\n",
        "10",
        "",
        "trace 2: wrong entry\n",
        12,
    ),
    (
        "t s 5\n",
        "1 t 0 receive s 5\n3 t 0 send o 5\n8 t 0 first\n",
        "10",
        "",
        "trace: missing end of frame 0 of task t\n",
        12,
    ),
    (
        "",
        "",
        "10",
        "",
        "trace: missing event 0 of frame 0 of task t\n",
        12,
    ),
    ("", "", "0", "yes\n", "", 0),
    (
        "q\n",
        "x\n",
        "10000001",
        "",
        "limit: ticks 10000001 above 10000000\n",
        3,
    ),
];

/// A task that sends once in each 40 ticks, from tick 10 to 30.
const HELD: &[u8] =
    b"task lo priority 1 { output o; local int m; every 40 { m := 1; do start after 10 finish within 30 { send m to o; } } }";

/// Traces of 30 ticks of `HELD`, with the event at each edge of its window and outside each, and what `judge` leaves.
const WINDOWS: [(&str, &str, &str, u8); 4] = [
    ("9 lo 0 send o 1\n", "", "trace 1: early\n", 12),
    (
        "10 lo 0 send o 1\n11 lo 0 first\n12 lo 0 end\n",
        "yes\n",
        "",
        0,
    ),
    (
        "30 lo 0 send o 1\n31 lo 0 first\n32 lo 0 end\n",
        "yes\n",
        "",
        0,
    ),
    ("31 lo 0 send o 1\n", "", "trace 1: overdue\n", 12),
];

#[test]
fn judges_the_example(rt: HostRuntime) -> Result<(), Fail> {
    for (script, trace, ticks, out, err, code) in EXAMPLE {
        let words = ["judge", "p", "t", "s", "l", ticks];
        let files = (ECHO, trace.as_bytes(), script.as_bytes());
        let left = run_four(rt.alloc(), &words, files, NONE)?;
        assert_eq!(rt; left.out.bytes(), out.as_bytes());
        assert_eq!(rt; left.err.bytes(), err.as_bytes());
        assert_eq!(rt; left.status.code(), code);
    }
    Ok(())
}

#[test]
fn judges_by_windows(rt: HostRuntime) -> Result<(), Fail> {
    let words = ["judge", "p", "t", "s", "l", "30"];
    for (trace, out, err, code) in WINDOWS {
        let files = (HELD, trace.as_bytes(), b"".as_slice());
        let left = run_four(rt.alloc(), &words, files, NONE)?;
        assert_eq!(rt; left.out.bytes(), out.as_bytes());
        assert_eq!(rt; left.err.bytes(), err.as_bytes());
        assert_eq!(rt; left.status.code(), code);
    }
    Ok(())
}
