ghost use Rattle.tcel_core.specs.Plain.{plain_task};
ghost use Rattle.tcel_core.specs.Sound.{IsSoundTask};

use crate::programs::{task_in, worked_task};
use std::process::Abort;
use std::test::Fail;
use tcel_core::CoreTask;
use tcel_flow::flow_of;
use tcel_slice::kept;

const HEAD: &[u8] = b"task t priority 1 { input s; output o; state int x; local int y; ";

// Compares which items of a task are kept.
fn compare(rt: &(impl Abort + AllocGlobal), task: &CoreTask, wanted: &[bool]) -> Result<(), Fail>
    requires { IsSoundTask (plain_task task.now) }
{
    let flow = flow_of(rt.alloc(), task)?;
    let set = kept(rt.alloc(), task, &flow)?;
    assert_eq!(rt; set.list.as_slice(), wanted);
    Ok(())
}

#[test]
fn the_worked_task(rt: HostRuntime) -> Result<(), Fail> {
    let task = worked_task(rt.alloc())?;
    compare(&rt, &task, &[true, true, true, false, false, true, true])
}

#[test]
fn four_hundred_ifs(rt: HostRuntime) -> Result<(), Fail> {
    let mut body = Vec::from_slice(rt.alloc(), b"receive x from s;\n")?;
    for _ in 0..400 {
        body.extend_from_slice(b"if x > 0 { x := x + 1; }\n")?;
    }
    body.extend_from_slice(b"send x to o;")?;
    let task = task_in(rt.alloc(), HEAD, (b"every 30", &body))?;
    compare(&rt, &task, &[true; 402])
}

#[test]
fn tests_and_their_sources_are_kept(rt: HostRuntime) -> Result<(), Fail> {
    let body: &[u8] =
        b"x := 1; y := 2; if x > 0 { } else { if y > 0 { send 5 to o; } } x := 3; y := y + 1;";
    let task = task_in(rt.alloc(), HEAD, (b"every 30", body))?;
    compare(&rt, &task, &[true, true, true, false, false])
}

#[test]
fn what_a_kept_item_reads_is_kept(rt: HostRuntime) -> Result<(), Fail> {
    let body: &[u8] = b"x := 1; y := x; y := x + 2; send y to o; x := y;";
    let task = task_in(rt.alloc(), HEAD, (b"every 30", body))?;
    compare(&rt, &task, &[true, false, true, true, false])
}
