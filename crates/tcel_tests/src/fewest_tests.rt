use crate::programs::set_of;
use std::process::Abort;
use std::test::Fail;
use tcel_demand::{Late, PointName};
use tcel_driver::forms_of;
use tcel_fewest::{SetFault, Why, fewest, has};
use tcel_make::make;
use tcel_target::Costs;

// The lower task's frame is late as a whole, after 113 ticks of 100.
const LOWER: &[u8] = b"task hi priority 2 { input s; state int n; local int x; local int i; \
    every 70 { receive x from s; for i < 3 { n := n + x; } } }\n\
    task lo priority 1 { input s; output o; state int y; state int a; state int b; state int c; \
    local int x; local int z; local int i; local int j; \
    every 100 { receive x from s; receive z from s; send x to o; for i < 3 { y := y + z; } send y to o; \
    for j < 3 { a := a + x; } b := b + z; c := c + x; } }";

// Its block ends after 12 ticks, in whatever form.
const HOPELESS: &[u8] =
    b"task t priority 1 { output o; every 100 { do start after 10 finish within 5 { send 1 to o; } } }";

// Compares what is found for a program of few tasks with unit costs.
fn compare(
    rt: &(impl Abort + AllocGlobal),
    text: &[u8],
    found: Option<u16>,
    faults: &[SetFault],
) -> Result<(), Fail> {
    let set = set_of(rt.alloc(), text)?;
    let forms = forms_of(rt.alloc(), &set, &Costs::unit())?;
    assert!(rt; forms.whole.len() <= 12);
    let answer = fewest(rt.alloc(), &forms)?;
    assert_eq!(rt; answer.found, found);
    assert_eq!(rt; answer.faults.as_slice(), faults);
    Ok(())
}

// the set's first late point is that of the task's frame 0
fn late(
    tasks: u16,
    task: usize,
    point: usize,
    name: PointName,
    response: u64,
    bound: u64,
) -> SetFault {
    let first = Late {
        task,
        frame: 0,
        point,
        name,
        response,
        bound,
    };
    SetFault {
        tasks,
        why: Why::Late(first),
    }
}

#[test]
fn the_lower_task_alone_is_sliced(rt: HostRuntime) -> Result<(), Fail> {
    let whole = late(0, 1, 0, PointName::Frame, 113, 100);
    compare(&rt, LOWER, Some(1), &[whole])
}

// The higher task's frame is late as a whole; the lower one's comes in time behind it.
#[test]
fn the_higher_task_alone_is_sliced(rt: HostRuntime) -> Result<(), Fail> {
    let made = make(rt.alloc(), 1, 2)?;
    let whole = late(0, 0, 0, PointName::Frame, 102, 100);
    let lower = late(1, 0, 0, PointName::Frame, 102, 100);
    compare(&rt, &made, Some(2), &[whole, lower])
}

#[test]
fn no_set_fits(rt: HostRuntime) -> Result<(), Fail> {
    let whole = late(0, 0, 1, PointName::Within(1), 12, 5);
    let sliced = late(1, 0, 1, PointName::Within(1), 12, 5);
    compare(&rt, HOPELESS, None, &[whole, sliced])
}

// Number 5, which is 4 and 1, has the tasks with two tasks below and with none.
#[test]
fn members_of_a_set(rt: HostRuntime) -> Result<(), Fail> {
    assert!(rt; has(5, 2));
    assert!(rt; !has(5, 1));
    assert!(rt; has(5, 0));
    Ok(())
}
