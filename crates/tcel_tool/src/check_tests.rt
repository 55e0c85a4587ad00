use crate::program_tests::compare_call;
use std::process::Abort;
use std::test::Fail;

/// Compares what a call of `check` leaves.
fn compare(
    rt: &(impl Abort + AllocGlobal),
    text: &[u8],
    code: u8,
    left: (&[u8], &[u8]),
) -> Result<(), Fail> {
    compare_call(rt, "check", text, code, left)
}

#[test]
fn refuses_programs_with_faults(rt: HostRuntime) -> Result<(), Fail> {
    let rows = [
        (
            "task a priority 1 { every 9 { } }\ntask b priority 1 { every 9 { } }\n",
            "program 2:17: same priority\n",
        ),
        (
            "task t priority 1 { output o; every 9 { send true to o; } }",
            "program 1:46: wrong type\n",
        ),
        (
            "task t priority 1 { every 0 { } }",
            "program 1:27: bound out of range\n",
        ),
        (
            "task t priority 0 { input t; every 9 { send u to t; } }",
            "program 1:17: bound out of range\n",
        ),
        (
            "task t priority 1 { input t; every 9 { send u to t; } }",
            "program 1:45: unknown name\n",
        ),
    ];
    for (text, line) in rows {
        compare(&rt, text.as_bytes(), 2, (b"", line.as_bytes()))?;
    }
    Ok(())
}

#[test]
fn refuses_a_seventeenth_task(rt: HostRuntime) -> Result<(), Fail> {
    let alloc = rt.alloc();
    let names = [
        "a", "b", "c", "d", "e", "f", "g", "h", "i", "j", "k", "l", "m", "n", "o", "p", "q",
    ];
    let mut text = String::new(alloc);
    for (index, name) in names.into_iter().enumerate() {
        if index == 16 {
            compare(&rt, text.as_bytes(), 0, (b"ok\n", b""))?;
        }
        let priority = index + 1;
        text.push_str(format!(in alloc;
            "task {name} priority {priority} {{ every 9 {{ }} }}\n"
        )?.as_str())?;
    }
    let line = b"limit: tasks above 16 at 17:6\n";
    compare(&rt, text.as_bytes(), 3, (b"", line))
}
