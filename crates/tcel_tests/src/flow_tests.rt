use crate::programs::{task_in, worked_task};
use std::test::Fail;
use tcel_flow::{Step, Use, flow_of, reaches, stands_around};

// Its letter, its number, the rows' first words and whether an event stands in it.
fn seen(step: Step) -> (u8, u32, u64, u64, bool) {
    match step {
        Step::Item {
            id,
            reads,
            writes,
            event,
        } => (b'i', id, reads.bits[0], writes.bits[0], event),
        Step::Open { test, reads } => (b'o', test, reads.bits[0], 0, false),
        Step::Middle => (b'm', 0, 0, 0, false),
        Step::Close => (b'c', 0, 0, 0, false),
    }
}

#[test]
fn the_shape_of_a_body(rt: HostRuntime) -> Result<(), Fail> {
    let alloc = rt.alloc();
    let head: &[u8] =
        b"task t priority 1 { input s; output o; state int n; local int y; local int x; ";
    let choose: &[u8] =
        b"receive x from s; do finish within 9 { if x > 0 { y := x; send y to o; } else { y := 5; n := n + y; } }";
    let task = task_in(alloc, head, (b"every 30", choose))?;
    let flow = flow_of(alloc, &task)?;
    let steps = [
        (b'i', 0, 0, 4, true),
        (b'o', 0, 4, 0, false),
        (b'i', 1, 4, 2, false),
        (b'i', 2, 2, 0, true),
        (b'm', 0, 0, 0, false),
        (b'i', 3, 0, 2, false),
        (b'i', 4, 3, 1, false),
        (b'c', 0, 0, 0, false),
    ];
    assert_eq!(rt; flow.shape.len(), steps.len());
    for i in 0..steps.len() {
        assert_eq!(rt; seen(flow.shape.as_slice()[i]), steps[i]);
    }
    Ok(())
}

// Who reaches whom in the worked task: the item, the use and the variable.
const REACHING: [(u32, Use, u32); 5] = [
    (0, Use::Test(0), 2),
    (0, Use::Item(1), 2),
    (1, Use::Item(2), 1),
    (3, Use::Item(4), 1),
    (5, Use::Item(6), 1),
];

#[test]
fn who_reaches_whom(rt: HostRuntime) -> Result<(), Fail> {
    let alloc = rt.alloc();
    let task = worked_task(alloc)?;
    let flow = flow_of(alloc, &task)?;
    for from in 0..9 {
        for var in [0, 1, 2, 3, 255, 256, 258] {
            for to in 0..9 {
                for user in [Use::Item(to), Use::Test(to)] {
                    let wanted = REACHING.iter().any(|x| *x == (from, user, var));
                    assert_eq!(rt; reaches(&task, &flow, from, user, var), wanted);
                }
            }
        }
    }
    Ok(())
}

#[test]
fn which_tests_stand_around(rt: HostRuntime) -> Result<(), Fail> {
    let alloc = rt.alloc();
    let task = worked_task(alloc)?;
    let flow = flow_of(alloc, &task)?;
    for item in 0..9 {
        for test in 0..3 {
            let wanted = item >= 1 && item <= 4 && test == 0;
            assert_eq!(rt; stands_around(&task, &flow, item, test), wanted);
        }
    }
    Ok(())
}
