ghost use Rattle.std.specs.Prelude.{◌≡◌, ◌≤◌, IfOk, length};
ghost use Rattle.tcel_core.specs.Plain.{plain_set};
ghost use Rattle.tcel_core.specs.Sound.{IsSoundSet};

use crate::programs::{Row, set_in};
use std::alloc::Global;
use std::process::Abort;
use std::test::Fail;
use tcel_core::Set;
use tcel_driver::forms_of;
use tcel_judge::{Breach, Due, Verdict, judge};
use tcel_script::{Script, read_script};
use tcel_target::Costs;
use tcel_trace::read_trace;

fn script_of(alloc: Global, set: &Set, text: &[u8]) -> Result<Script, Fail>
    requires sound { IsSoundSet (plain_set set.now) }
    requires short { length text.now ≤ 16777216 }
    ensures { IfOk result (λ script. length script ≡ length set.now.tasks) }
{
    let ports = set.ports(alloc)?;
    let script = read_script(alloc, text, &ports)?;
    Ok(script)
}

// Compares what is said of a trace of so many ticks of these tasks on a script, by their plans with unit costs, none sliced.
fn compare(
    rt: &(impl Abort + AllocGlobal),
    (heads, rows): (&[&[u8]], &[Row<'_>]),
    script: &[u8],
    ticks: u64,
    (text, wanted): (&[u8], Verdict),
) -> Result<(), Fail> {
    assert!(rt; script.len() <= 16_777_216 && text.len() <= 16_777_216 && ticks <= 10_000_000);
    let alloc = rt.alloc();
    let set = set_in(alloc, heads, rows)?;
    let forms = forms_of(alloc, &set, &Costs::unit())?;
    let script = script_of(alloc, &set, script)?;
    let lines = read_trace(alloc, text)?;
    let said = judge(alloc, &set, forms.whole.as_slice(), &script, ticks, &lines)?;
    assert_eq!(rt; said, wanted, "{text:?}");
    Ok(())
}

#[test]
fn one_task(rt: HostRuntime) -> Result<(), Fail> {
    let cases: [(&[u8], Verdict); 7] = [
        (
            b"1 t 0 receive s 5\n3 t 0 send o 5\n8 t 0 first\n9 t 0 end n=1\n",
            Verdict::Yes,
        ),
        (
            b"1 t 0 receive s 5\n3 t 0 send o 5\n8 t 0 first\n",
            missing(Due::End),
        ),
        (
            b"1 t 0 receive s 5\n3 t 0 send o 6\n8 t 0 first\n9 t 0 end n=1\n",
            Verdict::No(Breach::Entry { line: 2 }),
        ),
        (
            b"11 t 0 receive s 5\n13 t 0 send o 5\n",
            Verdict::No(Breach::Overdue { line: 1 }),
        ),
        (
            b"1 t 0 receive s 5\n3 t 0 send o 5\n3 t 0 first\n",
            Verdict::No(Breach::Order { line: 3 }),
        ),
        (
            b"1 u 0 receive s 5\n",
            Verdict::No(Breach::Unknown { line: 1 }),
        ),
        (b"", missing(Due::Event { number: 0 })),
    ];
    let head: &[u8] = b"task t priority 1 { input s; output o; state int n; local int x; ";
    let count: &[u8] = b"receive x from s; send x to o; n := n + 1;";
    for case in cases {
        compare(
            &rt,
            (&[head], &[(b"every 10", count)]),
            b"t s 5 6\n",
            10,
            case,
        )?;
    }
    Ok(())
}

// An entry of frame 0 of the first task is missing.
fn missing(what: Due) -> Verdict {
    Verdict::No(Breach::Missing {
        task: 0,
        frame: 0,
        what,
    })
}

#[test]
fn two_tasks(rt: HostRuntime) -> Result<(), Fail> {
    let cases: [(&[u8], Verdict); 3] = [
        (
            b"2 hi 0 send o 1\n3 hi 0 first\n4 hi 0 end\n10 hi 1 send o 1\n11 hi 1 first\n12 hi 1 end\n\
            15 lo 0 send o 1\n16 lo 0 first\n18 hi 2 send o 1\n19 hi 2 first\n20 hi 2 end\n21 lo 0 end\n",
            Verdict::Yes,
        ),
        (
            b"2 hi 0 send o 1\n3 hi 0 first\n4 hi 0 end\n10 hi 1 send o 1\n11 hi 1 first\n12 hi 1 end\n\
            13 lo 0 send o 1\n16 lo 0 first\n18 hi 2 send o 1\n19 hi 2 first\n20 hi 2 end\n21 lo 0 end\n",
            Verdict::Yes,
        ),
        (
            b"2 hi 0 send o 1\n3 hi 0 first\n4 hi 0 end\n9 lo 0 send o 1\n",
            Verdict::No(Breach::Early { line: 4 }),
        ),
    ];
    let heads: [&[u8]; 2] = [
        b"task hi priority 2 { output o; ",
        b"task lo priority 1 { output o; local int m; ",
    ];
    let wait: &[u8] = b"m := 1; do start after 10 finish within 30 { send m to o; }";
    let rows: [Row<'_>; 2] = [(b"every 8", b"send 1 to o;"), (b"every 40", wait)];
    for case in cases {
        compare(&rt, (&heads, &rows), b"", 24, case)?;
    }
    Ok(())
}
