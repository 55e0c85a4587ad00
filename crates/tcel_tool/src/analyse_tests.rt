use crate::status::Status;
use crate::tests::{NONE, UNIT, run};
use std::test::Fail;

/// Programs and their reports.
const REPORTS: [(&str, &str); 3] = [
    (
        "task hi priority 2 { input s; state int n; local int x; local int i; every 70 { receive x from s; for i < 3 { \
        n := n + x; } } } task lo priority 1 { input s; output o; state int y; state int a; state int b; state int c; \
        local int x; local int z; local int i; local int j; every 100 { receive x from s; receive z from s; \
        send x to o; for i < 3 { y := y + z; } send y to o; for j < 3 { a := a + x; } b := b + z; c := c + x; } }",
        "sliced 1 of 2\ntask hi whole period 70 total 26\npoint frame prefix 25 bound 70 worst 25 frame 0\n\
        task lo sliced period 100 total 62\npoint frame prefix 30 bound 100 worst 70 frame 1\n",
    ),
    (
        "task hi priority 2 { output o; every 8 { send 1 to o; } } task lo priority 1 { output o; local int m; \
        every 40 { m := 1; do start after 10 finish within 30 { send m to o; } } }",
        "sliced 0 of 2\ntask hi whole period 8 total 4\npoint frame prefix 3 bound 8 worst 3 frame 0\n\
        task lo whole period 40 total 14\npoint frame prefix 13 bound 40 worst 29 frame 0\n\
        point within 1 prefix 12 bound 30 worst 24 frame 0\n",
    ),
    (
        "task a priority 2 { every 499999 { } } task b priority 1 { every 500000 { } }",
        "sliced 0 of 2\ntask a whole period 499999 total 2\npoint frame prefix 1 bound 499999 worst 1 frame 0\n\
        task b whole period 500000 total 2\npoint frame prefix 1 bound 500000 worst 3 frame 0\n",
    ),
];

const ANALYSE: [&str; 3] = ["analyse", "p", "t"];

#[test]
fn reports_on_programs(rt: HostRuntime) -> Result<(), Fail> {
    for (program, report) in REPORTS {
        let left = run(rt.alloc(), &ANALYSE, (program.as_bytes(), UNIT), NONE)?;
        assert_eq!(rt; left.out.bytes(), report.as_bytes());
        assert_eq!(rt; left.err.bytes(), b"".as_slice());
        assert_eq!(rt; left.status, Status::Ok);
    }
    Ok(())
}

#[test]
fn reports_nothing_on_a_program_that_does_not_fit(rt: HostRuntime) -> Result<(), Fail> {
    let late =
        b"task a priority 2 { every 3 { } } task b priority 1 { every 6 finish within 2 { } }";
    let left = run(rt.alloc(), &ANALYSE, (late, UNIT), NONE)?;
    assert_eq!(rt; left.out.bytes(), b"".as_slice());
    assert_eq!(rt;
        left.err.bytes(),
        b"rejected: late task b frame 0 point frame response 3 bound 2\n".as_slice()
    );
    assert_eq!(rt; left.status.code(), 1);
    Ok(())
}
