use crate::status::Status;
use crate::tests::{Fails, NONE, UNIT, run};
use std::alloc::{AllocError, Global};
use std::test::Fail;
use tcel_io::PutFail;

/// Programs, and which tasks have to be sliced in each.
const FEWEST: [(&str, &str); 8] = [
    (
        "task hi priority 2 { input s; state int n; local int x; local int i; every 70 { receive x from s; for i < 3 { \
        n := n + x; } } } task lo priority 1 { input s; output o; state int y; state int a; state int b; state int c; \
        local int x; local int z; local int i; local int j; every 100 { receive x from s; receive z from s; \
        send x to o; for i < 3 { y := y + z; } send y to o; for j < 3 { a := a + x; } b := b + z; c := c + x; } }",
        "fewest 1 of 2\nslice lo\nset none late task lo frame 0 point frame response 113 bound 100\n",
    ),
    (
        "task t0 priority 100 { input s; output o; state int n; local int x; local int i; \
        every 4000 finish within 100 { receive x from s; send x + 0 to o; for i < 2 { n := n + x; } n := n + x; \
        n := n + x; n := n + x; n := n + x; n := n + x; n := n + x; n := n + x; n := n + x; n := n + x; n := n + x; \
        n := n + x; n := n + x; n := n + x; n := n + x; n := n + x; n := n + x; n := n + x; n := n + x; n := n + x; \
        n := n + x; } } task t1 priority 99 { input s; output o; state int n; local int x; local int i; \
        every 8000 finish within 240 { receive x from s; send x + 1 to o; for i < 5 { n := n + x; } n := n + x; \
        n := n + x; n := n + x; n := n + x; n := n + x; n := n + x; n := n + x; n := n + x; n := n + x; n := n + x; \
        n := n + x; n := n + x; n := n + x; n := n + x; n := n + x; n := n + x; n := n + x; n := n + x; n := n + x; \
        n := n + x; } }",
        "fewest 1 of 2\nslice t0\nset none late task t0 frame 0 point frame response 102 bound 100\n\
        set t1 late task t0 frame 0 point frame response 102 bound 100\n",
    ),
    (
        "task t priority 1 { output o; every 100 { do start after 10 finish within 5 { send 1 to o; } } }",
        "fewest none of 1\nset none late task t frame 0 point within 1 response 12 bound 5\n\
        set t late task t frame 0 point within 1 response 12 bound 5\n",
    ),
    (
        "task t priority 1 { input s; output o; state int n; local int x; every 10 { receive x from s; send x to o; n := n + 1; } }",
        "fewest 0 of 1\n",
    ),
    (
        "task a priority 2 { every 4 { if true { } } } task b priority 1 { every 8 { if true { } } }",
        "fewest 1 of 2\nslice a\nset none overload demand 12 hyperperiod 8\nset b overload demand 10 hyperperiod 8\n",
    ),
    (
        "task a priority 2 { every 3 { if true { } } } task b priority 1 { input s; output o; state int n; \
        local int x; every 48 { receive x from s; n := n + x; x := x + 1; send x to o; } }",
        "fewest 1 of 2\nslice a\nset none overload demand 77 hyperperiod 48\nset b overload demand 81 hyperperiod 48\n",
    ),
    (
        "task a priority 2 { every 7 { if true { } } } task b priority 1 { every 7 { if true { } } }",
        "fewest 1 of 2\nslice b\nset none overload demand 8 hyperperiod 7\n",
    ),
    (
        "task a priority 2 { every 3 { if true { } } } task b priority 1 { every 3 { if true { } } }",
        "fewest none of 2\nset none overload demand 8 hyperperiod 3\nset b overload demand 6 hyperperiod 3\n\
        set a overload demand 6 hyperperiod 3\nset a+b overload demand 4 hyperperiod 3\n",
    ),
];

const WORDS: [&str; 3] = ["fewest", "p", "t"];

/// So many tasks with empty bodies, of rising priority.
fn tasks(alloc: Global, count: u32) -> Result<String, AllocError> {
    let mut text = String::new(alloc);
    for number in 0..count {
        let rank = number + 1;
        text.push_str(&format!(in alloc;
            "task t{number} priority {rank} {{ every 100 {{ }} }}\n"
        )?)?;
    }
    Ok(text)
}

#[test]
fn slices_the_fewest_tasks(rt: HostRuntime) -> Result<(), Fail> {
    for (program, text) in FEWEST {
        let left = run(rt.alloc(), &WORDS, (program.as_bytes(), UNIT), NONE)?;
        assert_eq!(rt; left.out.bytes(), text.as_bytes());
        assert_eq!(rt; left.err.bytes(), b"".as_slice());
        assert_eq!(rt; left.status, Status::Ok);
    }
    Ok(())
}

#[test]
fn takes_twelve_tasks(rt: HostRuntime) -> Result<(), Fail> {
    let twelve = tasks(rt.alloc(), 12)?;
    let left = run(rt.alloc(), &WORDS, (twelve.as_bytes(), UNIT), NONE)?;
    assert_eq!(rt; left.out.bytes(), b"fewest 0 of 12\n".as_slice());
    assert_eq!(rt; left.status, Status::Ok);
    let thirteen = tasks(rt.alloc(), 13)?;
    let left = run(rt.alloc(), &WORDS, (thirteen.as_bytes(), b"load = 2"), NONE)?;
    assert_eq!(rt; left.out.bytes(), b"".as_slice());
    assert_eq!(rt;
        left.err.bytes(),
        b"limit: fewest tasks 13 above 12\n".as_slice()
    );
    assert_eq!(rt; left.status.code(), 3);
    Ok(())
}

#[test]
fn writes_in_one_piece(rt: HostRuntime) -> Result<(), Fail> {
    let fails = Fails {
        out: Some(PutFail { call: 1, taken: 8 }),
        ..NONE
    };
    let one = tasks(rt.alloc(), 1)?;
    let left = run(rt.alloc(), &WORDS, (one.as_bytes(), UNIT), fails)?;
    assert_eq!(rt; left.out.bytes(), b"fewest 0".as_slice());
    assert_eq!(rt; left.status, Status::WriteFault);
    Ok(())
}
