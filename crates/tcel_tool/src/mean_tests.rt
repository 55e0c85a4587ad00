use crate::tests::{Fails, NONE, run};
use std::process::Abort;
use std::test::Fail;

/// Sends one value or two, the first of them by 15.
const ALARM: &[u8] =
    b"task t priority 1 { input s; output o; state int n; local int x; every 20 { receive x from s; \
    do start before 15 { if x > 0 { n := n + 1; } else { send n to o; } send 5 to o; } } }";

/// Reads and writes an array out of range, and divides at the edges.
const EDGE: &[u8] =
    b"task t priority 1 { input s; output o; state int a[2]; local int x; every 60 { a[5] := 7; send a[5] to o; \
    x := -9223372036854775807 - 1; send x / -1 to o; send x % -1 to o; send 4 / 0 to o; receive x from s; \
    send x to o; } }";

/// Compares what a call of `mean` leaves, where the output has room for 3000 bytes.
fn compare(
    rt: &(impl Abort + AllocGlobal),
    (program, script): (&[u8], &[u8]),
    frames: &str,
    code: u8,
    (out, err): (&[u8], &[u8]),
) -> Result<(), Fail> {
    let fails = Fails { room: 3000, ..NONE };
    let left = run(
        rt.alloc(),
        &["mean", "p", "t", frames],
        (program, script),
        fails,
    )?;
    assert_eq!(rt; left.err.bytes(), err);
    assert_eq!(rt; left.out.bytes(), out);
    assert_eq!(rt; left.status.code(), code);
    Ok(())
}

#[test]
fn writes_events_and_states(rt: HostRuntime) -> Result<(), Fail> {
    let alarm =
        b"t 0 receive s 1 0 20\nt 0 send o 5 0 15\nt 0 end n=1\nt 1 receive s 0 0 20\nt 1 send o 1 0 15\nt 1 send o 5 0 20\nt 1 end n=1\n";
    compare(&rt, (ALARM, b"t s 1 0\n"), "2", 0, (alarm, b""))?;
    let edge =
        b"t 0 send o 0 0 60\nt 0 send o -9223372036854775808 0 60\nt 0 send o 0 0 60\nt 0 send o 0 0 60\n\
        t 0 receive s 0 0 60\nt 0 send o 0 0 60\nt 0 end a=[0,0]\n";
    compare(&rt, (EDGE, b""), "1", 0, (edge, b""))
}

#[test]
fn refuses_frames_and_scripts(rt: HostRuntime) -> Result<(), Fail> {
    compare(&rt, (ALARM, b"t s 1 0\n"), "0", 0, (b"", b""))?;
    let many = b"limit: mean frames 10001 above 10000\n";
    compare(&rt, (ALARM, b"t s 1 0\n"), "10001", 3, (b"", many))?;
    let port = b"script 1: no port\n";
    compare(&rt, (ALARM, b"t o 1\n"), "0", 10, (b"", port))
}
