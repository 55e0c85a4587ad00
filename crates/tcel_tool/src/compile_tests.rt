use crate::status::Status;
use crate::tests::{COMPILE, NONE, UNIT, run};
use std::test::Fail;

/// Programs without a fault that no image is written for: with the exit status and the fault line of each.
const REFUSED: [(&str, u8, &str); 7] = [
    (
        "task t priority 1 { input s; output o; state int n; local int x; every 12 { receive x from s; n := n + x; \
        x := x + 1; send x to o; } }",
        1,
        "rejected: overload demand 17 hyperperiod 12\n",
    ),
    (
        "task t priority 1 { input s; output o; state int n; local int x; every 30 finish within 9 { receive x from s; \
        n := n + x; x := x + 1; send x to o; } }",
        1,
        "rejected: late task t frame 0 point frame response 10 bound 9\n",
    ),
    (
        "task t priority 1 { output o; every 100 { do start after 10 finish within 5 { send 1 to o; } } }",
        1,
        "rejected: late task t frame 0 point within 1 response 12 bound 5\n",
    ),
    (
        "task a priority 2 { every 3 { } } task b priority 1 { every 6 finish within 2 { } }",
        1,
        "rejected: late task b frame 0 point frame response 3 bound 2\n",
    ),
    (
        "task t priority 1 { state int n; local int i; local int j; local int k; every 1000000000 { for i < 10 { \
        for j < 4096 { for k < 4096 { n := n + 1; } } } } }",
        3,
        "limit: cycles 1174609974 above 1000000000 in task t\n",
    ),
    (
        "task a priority 2 { every 1000000000 { } } task b priority 1 { every 999999999 { } }",
        3,
        "limit: hyperperiod above 1000000000000 at task b\n",
    ),
    (
        "task a priority 2 { every 10 { } } task b priority 1 { every 10000000 { } }",
        3,
        "limit: frames 1000001 above 1000000\n",
    ),
];

/// Programs of which the image is run for 30 ticks, with the script and the lines of each. The first is compiled as it stands, the others sliced.
const RUN: [(&str, &str, &str); 4] = [
    (
        "task t priority 1 { input s; output o; state int n; local int x; every 30 finish within 13 { \
        receive x from s; n := n + x; x := x + 1; send x to o; } }",
        "t s 2\n",
        "1 t 0 receive s 2\n11 t 0 send o 3\n12 t 0 first\n13 t 0 end n=2\n",
    ),
    (
        "task t priority 1 { input s; output o; state int n; local int x; every 30 finish within 11 { \
        receive x from s; n := n + x; x := x + 1; send x to o; } }",
        "t s 2\n",
        "1 t 0 receive s 2\n9 t 0 send o 3\n10 t 0 first\n17 t 0 end n=2\n",
    ),
    (
        "task t priority 1 { input s; output o; state int n; local int x; every 30 finish within 4 { receive x from s; \
        send x to o; n := n + 1; } }",
        "t s 5 6\n",
        "1 t 0 receive s 5\n3 t 0 send o 5\n4 t 0 first\n9 t 0 end n=1\n",
    ),
    (
        "task t priority 1 { every 28 finish within 1 { if true { } } }",
        "",
        "1 t 0 first\n2 t 0 end\n29 t 1 first\n30 t 1 end\n",
    ),
];

#[test]
fn refuses_programs_that_do_not_fit(rt: HostRuntime) -> Result<(), Fail> {
    for (program, code, line) in REFUSED {
        let left = run(rt.alloc(), &COMPILE, (program.as_bytes(), UNIT), NONE)?;
        assert_eq!(rt; left.err.bytes(), line.as_bytes());
        assert_eq!(rt; left.status.code(), code);
        assert_eq!(rt; left.out.bytes(), b"".as_slice());
    }
    Ok(())
}

#[test]
fn runs_what_was_compiled(rt: HostRuntime) -> Result<(), Fail> {
    for (program, script, lines) in RUN {
        let image = run(rt.alloc(), &COMPILE, (program.as_bytes(), UNIT), NONE)?;
        assert_eq!(rt; image.status, Status::Ok);
        let words = ["run", "p", "t", "30"];
        let left = run(
            rt.alloc(),
            &words,
            (image.out.bytes(), script.as_bytes()),
            NONE,
        )?;
        assert_eq!(rt; left.out.bytes(), lines.as_bytes());
        assert_eq!(rt; left.status, Status::Ok);
    }
    Ok(())
}
