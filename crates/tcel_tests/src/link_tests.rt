ghost use Rattle.std.specs.Prelude.{◌≤◌, IfOk, length};
ghost use Rattle.tcel_core.specs.Plain.{plain_set};
ghost use Rattle.tcel_core.specs.Sound.{IsSoundSet};
ghost use Rattle.tcel_link.specs.Conditions.{FitsInputs};

use crate::programs::{Row, set_in};
use std::alloc::Global;
use std::process::Abort;
use std::test::Fail;
use tcel_core::Set;
use tcel_link::LinkFail::{self, BadLine, InLoop, InputTwice, NoInput, NoOutput};
use tcel_link::{Link, read_links, resolve};
use tcel_script::{Script, read_script};

// The tasks p, c and d.
const HEADS: [&[u8]; 3] = [
    b"task p priority 3 { input i; input j; output o; output r; state int n; local int x; ",
    b"task c priority 2 { input i; input j; output o; output r; state int n; local int x; ",
    b"task d priority 1 { input i; input j; output o; output r; state int n; local int x; ",
];

const COUNT: &[u8] = b"n := n + 1; send n to o;";

const PASS: &[u8] = b"receive x from i; send x to r;";

const TWICE: &[u8] = b"receive x from i; receive n from i; send x to r;";

const ECHO: &[u8] = b"receive n from i; send n + 1 to o;";

const DOUBLE: &[u8] = b"n := n + 1; send n to o; send n + 10 to o; send 7 to r;";

const ONCE: &[u8] = b"n := n + 1; if n == 1 { send 9 to o; }";

const LOOP: &[u8] = b"for x < 2 { receive n from i; }";

const IDLE: Row<'static> = (b"every 20", b"");

fn script_of(alloc: Global, set: &Set, text: &[u8]) -> Result<Script, Fail>
    requires sound { IsSoundSet (plain_set set.now) }
    requires short { length text.now ≤ 16777216 }
    ensures { IfOk result (λ script. FitsInputs (plain_set set.now) script) }
{
    let ports = set.ports(alloc)?;
    let script = read_script(alloc, text, &ports)?;
    Ok(script)
}

// Compares what the tasks' first inputs have in the derived script, and a zero behind it.
fn compare(
    rt: &(impl Abort + AllocGlobal),
    rows: [Row<'_>; 3],
    (links, text): (&[u8], &[u8]),
    ticks: u64,
    wanted: [&[i64]; 3],
) -> Result<(), Fail> {
    assert!(rt; links.len() <= 65_536 && text.len() <= 16_777_216 && ticks <= 10_000_000);
    let alloc = rt.alloc();
    let set = set_in(alloc, &HEADS, &rows)?;
    let links = read_links(alloc, links, &set)?;
    let script = script_of(alloc, &set, text)?;
    let resolved = resolve(alloc, &set, &links, script, ticks)?;
    for (task, values) in wanted.iter().enumerate() {
        for (n, value) in values.iter().enumerate() {
            assert_eq!(rt; resolved.value(task, 0, n as u64), *value);
        }
        assert_eq!(rt; resolved.value(task, 0, values.len() as u64), 0);
    }
    Ok(())
}

#[test]
fn values_are_taken_at_their_deadline(rt: HostRuntime) -> Result<(), Fail> {
    let same: [Row<'_>; 3] = [(b"every 20", COUNT), (b"every 20", PASS), IDLE];
    let link: &[u8] = b"p o c i\n";
    compare(&rt, same, (link, b""), 41, [&[], &[0, 1, 2], &[]])?;
    compare(&rt, same, (link, b""), 40, [&[], &[0, 1], &[]])?;
    compare(&rt, same, (link, b""), 0, [&[], &[], &[]])?;
    let often: [Row<'_>; 3] = [
        (b"every 20 finish within 10", COUNT),
        (b"every 10 finish within 15", PASS),
        IDLE,
    ];
    compare(&rt, often, (link, b""), 20, [&[], &[0, 1], &[]])?;
    compare(&rt, often, (link, b""), 31, [&[], &[0, 1, 1, 2], &[]])?;
    let late: [Row<'_>; 3] = [
        (b"every 10 finish within 15", COUNT),
        (b"every 10", PASS),
        IDLE,
    ];
    compare(&rt, late, (link, b""), 40, [&[], &[0, 0, 1, 2], &[]])
}

#[test]
fn values_go_to_all_linked_inputs(rt: HostRuntime) -> Result<(), Fail> {
    let two: [Row<'_>; 3] = [
        (b"every 10", COUNT),
        (b"every 10", PASS),
        (b"every 20", TWICE),
    ];
    let links: &[u8] = b"p o d i\n# to both\n\np o c i\r\n";
    compare(&rt, two, (links, b""), 30, [&[], &[0, 1, 2], &[0, 0, 2, 2]])?;
    let itself: [Row<'_>; 3] = [(b"every 10", ECHO), IDLE, IDLE];
    compare(
        &rt,
        itself,
        (b"p o p i", b""),
        40,
        [&[0, 1, 2, 3], &[], &[]],
    )?;
    let chain: [Row<'_>; 3] = [
        (b"every 10", COUNT),
        (b"every 10", PASS),
        (b"every 10", PASS),
    ];
    let both: &[u8] = b"p o c i\nc r d i\n";
    compare(&rt, chain, (both, b""), 30, [&[], &[0, 1, 2], &[0, 0, 1]])?;
    let back: &[u8] = b"c r d i\np o c i\n";
    compare(&rt, chain, (back, b""), 30, [&[], &[0, 1, 2], &[0, 0, 1]])
}

#[test]
fn the_last_value_of_all_frames_is_taken(rt: HostRuntime) -> Result<(), Fail> {
    let link: &[u8] = b"p o c i\n";
    let double: [Row<'_>; 3] = [(b"every 20", DOUBLE), (b"every 20", PASS), IDLE];
    compare(&rt, double, (link, b""), 60, [&[], &[0, 11, 12], &[]])?;
    let once: [Row<'_>; 3] = [(b"every 20", ONCE), (b"every 20", PASS), IDLE];
    compare(&rt, once, (link, b""), 80, [&[], &[0, 9, 9, 9], &[]])
}

#[test]
fn only_linked_inputs_are_replaced(rt: HostRuntime) -> Result<(), Fail> {
    let tasks: [Row<'_>; 3] = [
        (b"every 20", COUNT),
        (b"every 20", PASS),
        (b"every 20", PASS),
    ];
    let text: &[u8] = b"c i 5 6 7\nd i 8 9\n";
    compare(&rt, tasks, (b"p o c i", text), 40, [&[], &[0, 1], &[8, 9]])?;
    compare(
        &rt,
        tasks,
        (b"p o c j", text),
        40,
        [&[], &[5, 6, 7], &[8, 9]],
    )?;
    compare(&rt, tasks, (b"", text), 40, [&[], &[5, 6, 7], &[8, 9]])
}

#[test]
fn links_are_listed(rt: HostRuntime) -> Result<(), Fail> {
    let alloc = rt.alloc();
    let set = set_in(alloc, &HEADS, &[IDLE, IDLE, (b"every 20", LOOP)])?;
    let links = read_links(alloc, b"#\n\tc  r d j \np o p i", &set)?;
    let wanted = [
        Link {
            from: 1,
            output: 1,
            to: 2,
            input: 1,
        },
        Link {
            from: 0,
            output: 0,
            to: 0,
            input: 0,
        },
    ];
    assert_eq!(rt; links.list(), wanted.as_slice());
    Ok(())
}

#[test]
fn the_first_faulty_line_is_named(rt: HostRuntime) -> Result<(), Fail> {
    let alloc = rt.alloc();
    let set = set_in(alloc, &HEADS, &[IDLE, IDLE, (b"every 20", LOOP)])?;
    let cases: [(&[u8], LinkFail); 14] = [
        (b"p", BadLine { line: 1 }),
        (b"p o c", BadLine { line: 1 }),
        (b"p o c i i", BadLine { line: 1 }),
        (b"# x\n\np o c\n", BadLine { line: 3 }),
        (b"q o c i", NoOutput { line: 1 }),
        (b"p i q i", NoOutput { line: 1 }),
        (b"p o q i", NoInput { line: 1 }),
        (b"p o c o", NoInput { line: 1 }),
        (b" # o c i", NoOutput { line: 1 }),
        (b"p o c i\np o c i\n", InputTwice { line: 2 }),
        (b"p o c i\np r c i\nq\n", InputTwice { line: 2 }),
        (b"p o c i\nq o c i\n", NoOutput { line: 2 }),
        (b"p o c i\np o d i\n", InLoop { line: 2 }),
        (b"p o d j\np o d i\n", InLoop { line: 2 }),
    ];
    for (text, wanted) in cases {
        assert!(rt; text.len() <= 65_536);
        match read_links(alloc, text, &set) {
            Ok(_) => assert!(rt; false, "{text:?}"),
            Err(fail) => assert_eq!(rt; fail, wanted, "{text:?}"),
        }
    }
    Ok(())
}
