use crate::status::{CountKind, LimitFault, Status};
use crate::tests::{Fails, NONE, UNIT, run};
use std::test::Fail;
use tcel_io::PutFail;

/// Two tasks that ask for every tick.
const FULL: &str = "task a priority 2 { every 3 { } } task b priority 1 { every 6 { } }";

/// A task of 4 of 8 ticks, and one whose event comes at 10 at the earliest.
const HELD: &str =
    "task hi priority 2 { output o; every 8 { send 1 to o; } } task lo priority 1 { output o; local int m; every 40 { \
    m := 1; do start after 10 finish within 30 { send m to o; } } }";

/// Two of 5 ticks.
const IDLE: &str = "task t priority 1 { every 5 { } }";

/// Programs, numbers of ticks and their timelines.
const TIMELINES: [(&str, &str, &str); 7] = [
    (FULL, "6", "0 2 a\n2 3 b\n3 5 a\n5 6 b\n"),
    (FULL, "4", "0 2 a\n2 3 b\n3 4 a\n"),
    (HELD, "16", "0 4 hi\n4 8 lo\n8 12 hi\n12 16 lo\n"),
    (IDLE, "12", "0 2 t\n2 5 idle\n5 7 t\n7 10 idle\n10 12 t\n"),
    (IDLE, "4", "0 2 t\n2 4 idle\n"),
    (IDLE, "1", "0 1 t\n"),
    (IDLE, "0", ""),
];

#[test]
fn shows_whom_each_tick_serves(rt: HostRuntime) -> Result<(), Fail> {
    for (program, ticks, text) in TIMELINES {
        let words = ["timeline", "p", "t", ticks];
        let left = run(rt.alloc(), &words, (program.as_bytes(), UNIT), NONE)?;
        assert_eq!(rt; left.out.bytes(), text.as_bytes());
        assert_eq!(rt; left.err.bytes(), b"".as_slice());
        assert_eq!(rt; left.status, Status::Ok);
    }
    Ok(())
}

#[test]
fn refuses_ticks_and_late_sets(rt: HostRuntime) -> Result<(), Fail> {
    let long = ["timeline", "p", "t", "10000001"];
    let left = run(rt.alloc(), &long, (b"", b""), NONE)?;
    let fault = LimitFault::Count {
        kind: CountKind::Ticks,
        value: 10_000_001,
    };
    assert_eq!(rt; left.status, Status::Limit(fault));
    let late =
        b"task a priority 2 { every 3 { } } task b priority 1 { every 6 finish within 2 { } }";
    let words = ["timeline", "p", "t", "6"];
    let left = run(rt.alloc(), &words, (late, UNIT), NONE)?;
    assert_eq!(rt; left.out.bytes(), b"".as_slice());
    assert_eq!(rt;
        left.err.bytes(),
        b"rejected: late task b frame 0 point frame response 3 bound 2\n".as_slice()
    );
    assert_eq!(rt; left.status.code(), 1);
    Ok(())
}

#[test]
fn a_put_that_fails_ends_it(rt: HostRuntime) -> Result<(), Fail> {
    let cut = PutFail { call: 3, taken: 4 };
    let fails = Fails {
        out: Some(cut),
        ..NONE
    };
    let words = ["timeline", "p", "t", "6"];
    let left = run(rt.alloc(), &words, (FULL.as_bytes(), UNIT), fails)?;
    assert_eq!(rt; left.out.bytes(), b"0 2 a\n2 3 b\n3 5 ".as_slice());
    assert_eq!(rt; left.err.bytes(), b"write fault\n".as_slice());
    assert_eq!(rt; left.status, Status::WriteFault);
    Ok(())
}
