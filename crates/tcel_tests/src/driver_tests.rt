use crate::programs::{Row, set_in};
use std::alloc::Global;
use std::test::Fail;
use tcel_demand::{Late, PointName};
use tcel_driver::{Refused, decide};
use tcel_target::Costs;

// Tasks in falling priority.
const HEADS: [&[u8]; 3] = [
    b"task a priority 3 { input s; output o; state int n; local int x; ",
    b"task b priority 2 { input s; output o; state int n; local int x; ",
    b"task c priority 1 { input s; output o; state int n; local int x; ",
];

const COUNT: &[u8] = b"receive x from s; send x to o; n := n + 1;";

const STEP: &[u8] = b"receive x from s; n := n + x; x := x + 1; send x to o;";

const BRANCH: &[u8] = b"if true { }";

const ADD: &[u8] = b"n := n + 1; n := n + 2; send 1 to o;";

const LOOP: &[u8] = b"for x < 10 { for x < 4096 { for x < 4096 { n := n + 1; } } }";

// How many tasks are sliced, with unit costs.
fn answer(alloc: Global, rows: &[Row<'_>]) -> Result<Result<usize, Refused>, Fail> {
    let set = set_in(alloc, &HEADS, rows)?;
    let costs = Costs::unit();
    match decide(alloc, &set, &costs) {
        Ok(choice) => Ok(Ok(choice.sliced)),
        Err(cause) => Ok(Err(cause)),
    }
}

#[test]
fn a_task_is_sliced_only_where_it_must_be(rt: HostRuntime) -> Result<(), Fail> {
    let held: &[u8] = b"do start after 10 finish within 12 { send 1 to o; }";
    let cases: [(Row<'_>, usize); 7] = [
        ((b"every 10", COUNT), 0),
        ((b"every 10 finish within 4", COUNT), 1),
        ((b"every 9", COUNT), 0),
        ((b"every 15", STEP), 0),
        ((b"every 30 finish within 13", STEP), 0),
        ((b"every 30 finish within 11", STEP), 1),
        ((b"every 100", held), 0),
    ];
    for (row, sliced) in cases {
        assert_eq!(rt; answer(rt.alloc(), &[row])?, Ok(sliced), "{row:?}");
    }
    Ok(())
}

#[test]
fn rejections_are_those_of_the_sliced_set(rt: HostRuntime) -> Result<(), Fail> {
    let alloc = rt.alloc();
    let overload = Refused::Overload {
        demand: 9,
        hyper: 8,
    };
    assert_eq!(rt; answer(alloc, &[(b"every 8", COUNT)])?, Err(overload));
    let overload = Refused::Overload {
        demand: 17,
        hyper: 12,
    };
    assert_eq!(rt; answer(alloc, &[(b"every 12", STEP)])?, Err(overload));
    let late = Refused::Late(Late {
        task: 0,
        frame: 0,
        point: 0,
        name: PointName::Frame,
        response: 10,
        bound: 9,
    });
    let step: Row<'_> = (b"every 30 finish within 9", STEP);
    assert_eq!(rt; answer(alloc, &[step])?, Err(late));
    let late = Refused::Late(Late {
        task: 0,
        frame: 0,
        point: 1,
        name: PointName::Within(1),
        response: 12,
        bound: 5,
    });
    let held: &[u8] = b"do start after 10 finish within 5 { send 1 to o; }";
    assert_eq!(rt; answer(alloc, &[(b"every 100", held)])?, Err(late));
    Ok(())
}

#[test]
fn which_numbers_fit_is_not_monotone(rt: HostRuntime) -> Result<(), Fail> {
    let alloc = rt.alloc();
    let cases: [(&[Row<'_>], usize); 5] = [
        (&[(b"every 3", BRANCH)], 1),
        (&[(b"every 4", BRANCH), (b"every 8", BRANCH)], 2),
        (&[(b"every 60", STEP), (b"every 15", BRANCH)], 1),
        (
            &[
                (b"every 48", STEP),
                (b"every 15", BRANCH),
                (b"every 60", BRANCH),
            ],
            2,
        ),
        (
            &[
                (b"every 16", BRANCH),
                (b"every 72 finish within 20", STEP),
                (b"every 24", ADD),
            ],
            1,
        ),
    ];
    for (rows, sliced) in cases {
        assert_eq!(rt; answer(alloc, rows)?, Ok(sliced), "{rows:?}");
    }
    let overload = Refused::Overload {
        demand: 49,
        hyper: 48,
    };
    let with_the_first_alone: [Row<'_>; 2] = [(b"every 3", BRANCH), (b"every 48", STEP)];
    assert_eq!(rt; answer(alloc, &with_the_first_alone)?, Err(overload));
    Ok(())
}

#[test]
fn limits_come_first(rt: HostRuntime) -> Result<(), Fail> {
    let alloc = rt.alloc();
    let dear = Refused::TooDear {
        task: 0,
        cycles: 1_174_609_974,
    };
    assert_eq!(rt; answer(alloc, &[(b"every 1000000000", LOOP)])?, Err(dear));
    let long: [Row<'_>; 2] = [(b"every 1000000000", b""), (b"every 999999999", b"")];
    assert_eq!(rt;
        answer(alloc, &long)?,
        Err(Refused::HyperTooLong { task: 1 })
    );
    let idle: [Row<'_>; 2] = [(b"every 4096", b""), (b"every 9999", b"")];
    assert_eq!(rt; answer(alloc, &idle)?, Ok(0));
    let frames = Refused::TooManyFrames { frames: 1_000_001 };
    let many: [Row<'_>; 2] = [(b"every 10", b""), (b"every 10000000", b"")];
    assert_eq!(rt; answer(alloc, &many)?, Err(frames));
    Ok(())
}
