use sqlite_items::Items;
use std::alloc::Global;
use std::process::Abort;
use std::test::Fail;
use tcel_image::{Image, ImageState, ImageTask, Instr, Line, StateKind, decode, in_range};
use tcel_machine::{Entry, Machine, What};
use tcel_num::{Name, Op};
use tcel_script::read_script;
use tcel_target::Costs;
use tcel_trace::{Buffer, LineWhat, TraceFail, TraceLine, put_entry, read_trace};
use tcel_verify::{Ready, verify};

/// Three tasks, and what their states begin with: `t` with an input `s`, an output `o` and n = 1; `u`
/// with a = [0, 0] and a bool b that holds 7; `v` with the least and the greatest number in a, b = 0 and
/// n = -12.
const IMAGE: [u8; 293] = [
    84, 67, 69, 76, 1, 0, 0, 0, 3, 0, 0, 0, 1, 0, 0, 0, 1, 0, 0, 0, 1, 0, 0, 0, 1, 0, 0, 0, 1, 0,
    0, 0, 1, 0, 0, 0, 1, 0, 0, 0, 1, 0, 0, 0, 1, 0, 0, 0, 1, 0, 0, 0, 1, 0, 0, 0, 1, 0, 0, 0, 1, 0,
    0, 0, 1, 0, 0, 0, 1, 0, 0, 0, 1, 116, 10, 0, 0, 0, 0, 1, 0, 1, 115, 1, 0, 1, 111, 1, 0, 1, 110,
    0, 1, 0, 0, 0, 1, 0, 0, 0, 0, 0, 0, 0, 1, 0, 0, 0, 1, 0, 0, 0, 15, 0, 0, 0, 0, 0, 0, 0, 0, 0,
    0, 0, 0, 0, 0, 0, 1, 117, 10, 0, 0, 0, 0, 0, 0, 0, 0, 2, 0, 1, 97, 2, 2, 0, 0, 0, 0, 0, 0, 0,
    0, 0, 0, 0, 0, 0, 0, 0, 0, 0, 0, 0, 1, 98, 1, 1, 0, 0, 0, 7, 0, 0, 0, 0, 0, 0, 0, 3, 0, 0, 0,
    1, 0, 0, 0, 15, 0, 0, 0, 0, 0, 0, 0, 0, 0, 0, 0, 0, 0, 0, 0, 1, 118, 10, 0, 0, 0, 0, 0, 0, 0,
    0, 3, 0, 1, 97, 2, 2, 0, 0, 0, 0, 0, 0, 0, 0, 0, 0, 128, 255, 255, 255, 255, 255, 255, 255,
    127, 1, 98, 1, 1, 0, 0, 0, 0, 0, 0, 0, 0, 0, 0, 0, 1, 110, 0, 1, 0, 0, 0, 244, 255, 255, 255,
    255, 255, 255, 255, 4, 0, 0, 0, 1, 0, 0, 0, 15, 0, 0, 0, 0, 0, 0, 0, 0, 0, 0, 0, 0, 0, 0, 0,
];

/// Time, task, frame and what is shown, and the line.
const LINES: [(u64, u32, u64, What, &str); 8] = [
    (
        1,
        0,
        0,
        What::Receive { port: 0, value: 5 },
        "1 t 0 receive s 5\n",
    ),
    (
        3,
        0,
        0,
        What::Send { port: 0, value: 5 },
        "3 t 0 send o 5\n",
    ),
    (8, 0, 0, What::First, "8 t 0 first\n"),
    (9, 0, 0, What::End, "9 t 0 end n=1\n"),
    (20, 1, 3, What::End, "20 u 3 end a=[0,0] b=true\n"),
    (
        20,
        2,
        3,
        What::End,
        "20 v 3 end a=[-9223372036854775808,9223372036854775807] b=false n=-12\n",
    ),
    (
        18446744073709551615,
        0,
        18446744073709551615,
        What::Receive {
            port: 0,
            value: -9223372036854775808,
        },
        "18446744073709551615 t 18446744073709551615 receive s -9223372036854775808\n",
    ),
    (
        3,
        0,
        0,
        What::Send {
            port: 0,
            value: 9223372036854775807,
        },
        "3 t 0 send o 9223372036854775807\n",
    ),
];

fn checked(rt: &impl Abort, image: Image) -> Result<Ready, Fail> {
    assert!(rt; in_range(&image));
    let Ok(ready) = verify(image) else {
        return Err(Fail::new("valid"));
    };
    Ok(ready)
}

#[test]
fn lines_of_entries(rt: HostRuntime) -> Result<(), Fail> {
    let ready = checked(&rt, decode(rt.alloc(), &IMAGE)?)?;
    let mut buffer = Buffer::for_image(rt.alloc(), &ready)?;
    let ports = ready.ports(rt.alloc())?;
    let script = read_script(rt.alloc(), b"", &ports)?;
    let machine = Machine::load(rt.alloc(), ready, script)?;
    for (time, task, frame, what, line) in LINES {
        let entry = Entry {
            time,
            task,
            frame,
            what,
        };
        put_entry(&mut buffer, &machine, &entry);
        assert_eq!(rt; buffer.bytes(), line.as_bytes());
    }
    Ok(())
}

/// A task of an image as the tables below write it.
#[derive(Clone, Copy)]
struct Row {
    name: &'static [u8],
    period: u32,
    inputs: &'static [&'static [u8]],
    outputs: &'static [&'static [u8]],
    states: &'static [(&'static [u8], StateKind, &'static [i64])],
    cells: u32,
    code: &'static [(u16, Instr)],
}

const EMPTY: Row = Row {
    name: b"a",
    period: 4,
    inputs: &[],
    outputs: &[],
    states: &[],
    cells: 0,
    code: &[(0, Instr::Mark), (0, Instr::End)],
};

const RECEIVER: Row = Row {
    name: b"b",
    period: 6,
    inputs: &[b"s"],
    outputs: &[],
    states: &[],
    cells: 1,
    code: &[(0, Instr::Receive(0, 0)), (0, Instr::Mark), (0, Instr::End)],
};

const HIGH: Row = Row {
    name: b"hi",
    period: 8,
    inputs: &[],
    outputs: &[b"o"],
    states: &[],
    cells: 0,
    code: &[
        (0, Instr::Const(1)),
        (1, Instr::Send(0)),
        (0, Instr::Mark),
        (0, Instr::End),
    ],
};

/// Its hold waits until 10 ticks after the release.
const HOLDER: Row = Row {
    name: b"lo",
    period: 40,
    inputs: &[],
    outputs: &[b"o"],
    states: &[],
    cells: 1,
    code: &[
        (0, Instr::Const(1)),
        (1, Instr::Put(0)),
        (0, Instr::Hold(10)),
        (0, Instr::Get(0)),
        (1, Instr::Send(0)),
        (0, Instr::Mark),
        (0, Instr::End),
    ],
};

const STUCK: Row = Row {
    name: b"t",
    period: 4,
    inputs: &[],
    outputs: &[],
    states: &[],
    cells: 0,
    code: &[(0, Instr::Jump(0))],
};

/// Its frames take 9 ticks, more than its period.
const LATE: Row = Row {
    name: b"t",
    period: 4,
    inputs: &[b"s"],
    outputs: &[b"o"],
    states: &[(b"n", StateKind::Int, &[0])],
    cells: 2,
    code: &[
        (0, Instr::Receive(0, 1)),
        (0, Instr::Get(1)),
        (1, Instr::Send(0)),
        (0, Instr::Get(0)),
        (1, Instr::Const(1)),
        (2, Instr::Arith(Op::Add)),
        (1, Instr::Put(0)),
        (0, Instr::Mark),
        (0, Instr::End),
    ],
};

/// Its copy goes from the array's first two words to its last two.
const SHIFTING: Row = Row {
    name: b"t",
    period: 100,
    inputs: &[],
    outputs: &[],
    states: &[
        (b"a", StateKind::Array, &[1, 2, 3]),
        (b"b", StateKind::Bool, &[7]),
    ],
    cells: 4,
    code: &[(0, Instr::Copy(0, 1, 2)), (0, Instr::Mark), (0, Instr::End)],
};

/// Tasks, a script, a number of ticks, and the whole trace, with unit costs.
const TRACES: [(&[Row], &[u8], u32, &[&str]); 5] = [
    // Two tasks, and nothing in the script.
    (
        &[EMPTY, RECEIVER],
        b"",
        12,
        &[
            "1 a 0 first\n",
            "2 a 0 end\n",
            "3 b 0 receive s 0\n",
            "4 b 0 first\n",
            "5 a 1 first\n",
            "6 a 1 end\n",
            "7 b 0 end\n",
            "8 b 1 receive s 0\n",
            "9 a 2 first\n",
            "10 a 2 end\n",
            "11 b 1 first\n",
            "12 b 1 end\n",
        ],
    ),
    // A hold takes ticks 6 and 7, is preempted past its bound, and takes tick 12 too.
    (
        &[HIGH, HOLDER],
        b"",
        21,
        &[
            "2 hi 0 send o 1\n",
            "3 hi 0 first\n",
            "4 hi 0 end\n",
            "10 hi 1 send o 1\n",
            "11 hi 1 first\n",
            "12 hi 1 end\n",
            "15 lo 0 send o 1\n",
            "16 lo 0 first\n",
            "18 hi 2 send o 1\n",
            "19 hi 2 first\n",
            "20 hi 2 end\n",
            "21 lo 0 end\n",
        ],
    ),
    (&[STUCK], b"", 1000, &[]),
    // A backlog that grows.
    (
        &[LATE],
        b"t s 5 6\n",
        20,
        &[
            "1 t 0 receive s 5\n",
            "3 t 0 send o 5\n",
            "8 t 0 first\n",
            "9 t 0 end n=1\n",
            "10 t 1 receive s 6\n",
            "12 t 1 send o 6\n",
            "17 t 1 first\n",
            "18 t 1 end n=2\n",
            "19 t 2 receive s 0\n",
        ],
    ),
    // Ranges that overlap.
    (
        &[SHIFTING],
        b"",
        6,
        &["5 t 0 first\n", "6 t 0 end a=[1,1,2] b=true\n"],
    ),
];

fn names(alloc: Global, spelled: &[&[u8]]) -> Result<Items<Name>, Fail> {
    let mut list = Items::new(alloc);
    for name in spelled {
        list.push(Name::new(name).ok_or("a name")?)?;
    }
    Ok(list)
}

fn task_of(alloc: Global, row: &Row) -> Result<ImageTask, Fail> {
    let mut states = Items::new(alloc);
    for (name, kind, first) in row.states {
        states.push(ImageState {
            name: Name::new(name).ok_or("a name")?,
            kind: *kind,
            words: (first.len() % 4096) as u32,
            first: Items::from_slice(alloc, first)?,
        })?;
    }
    let mut code = Items::new(alloc);
    for (depth, instr) in row.code {
        code.push(Line {
            instr: *instr,
            depth: *depth,
        })?;
    }
    Ok(ImageTask {
        name: Name::new(row.name).ok_or("a name")?,
        period: row.period,
        sliced: false,
        inputs: names(alloc, row.inputs)?,
        outputs: names(alloc, row.outputs)?,
        states,
        cells: row.cells,
        code,
    })
}

fn image_of(alloc: Global, rows: &[Row]) -> Result<Image, Fail> {
    let mut tasks = Items::new(alloc);
    for row in rows {
        tasks.push(task_of(alloc, row)?)?;
    }
    Ok(Image {
        costs: Costs::unit(),
        tasks,
    })
}

/// Compares the lines of so many ticks of an image.
fn compare_run(
    rt: &(impl Abort + AllocGlobal),
    ready: Ready,
    text: &[u8],
    ticks: u32,
    lines: &[&str],
) -> Result<(), Fail> {
    let mut buffer = Buffer::for_image(rt.alloc(), &ready)?;
    let ports = ready.ports(rt.alloc())?;
    assert!(rt; text.len() <= 100);
    let script = read_script(rt.alloc(), text, &ports)?;
    let mut machine = Machine::load(rt.alloc(), ready, script)?;
    let mut left = lines.iter();
    for _ in 0..ticks {
        assert!(rt; machine.now() < 1_000_000_000_000);
        if let Some(entry) = machine.tick() {
            put_entry(&mut buffer, &machine, &entry);
            assert_eq!(rt;
                left.next().map(|line| line.as_bytes()),
                Some(buffer.bytes())
            );
        }
    }
    assert!(rt; left.next().is_none());
    Ok(())
}

#[test]
fn whole_traces(rt: HostRuntime) -> Result<(), Fail> {
    for (rows, text, ticks, lines) in TRACES {
        let image = image_of(rt.alloc(), rows)?;
        let ready = checked(&rt, image)?;
        compare_run(&rt, ready, text, ticks, lines)?;
    }
    Ok(())
}

const RUN: &[u8] =
    b"1 t 0 receive s 5\n3 t 0 send o -5\n8 t 0 first\n9 t 0 end n=1 a=[0,-2] b=true\n";

/// What a line of the task `t` and its frame 0 shows, as words.
fn shown<'a>(line: &'a TraceLine) -> (u64, &'static str, &'a [u8], i64) {
    match &line.what {
        LineWhat::Receive { port, value } => (line.time, "receive", port.bytes(), *value),
        LineWhat::Send { port, value } => (line.time, "send", port.bytes(), *value),
        LineWhat::First => (line.time, "first", b"", 0),
        LineWhat::End { state } => (line.time, "end", state.bytes(), 0),
    }
}

const SHOWN: [(u64, &str, &[u8], i64); 4] = [
    (1, "receive", b"s", 5),
    (3, "send", b"o", -5),
    (8, "first", b"", 0),
    (9, "end", b" n=1 a=[0,-2] b=true", 0),
];

#[test]
fn lines_of_a_text(rt: HostRuntime) -> Result<(), Fail> {
    let lines = read_trace(rt.alloc(), RUN)?;
    assert_eq!(rt; lines.len(), SHOWN.len());
    for (line, wanted) in lines.iter().zip(SHOWN) {
        assert_eq!(rt; (line.task.bytes(), line.frame), (b"t".as_slice(), 0));
        assert_eq!(rt; shown(line), wanted);
    }
    assert_eq!(rt; read_trace(rt.alloc(), b"")?.len(), 0);
    Ok(())
}

/// Texts that are no trace, and the first line of each that isn't one.
const NO_TRACES: [(&[u8], u32); 22] = [
    (b"x", 1),
    (b"\n", 1),
    (b" \n", 1),
    (b"8 t 0 first", 1),
    (b"8 t 0 first\n9 t 0 end n=1", 2),
    (b"8 t 0 first\n\n9 t 0 end n=1\n", 2),
    (b"8 t 0 first\r\n", 1),
    (b"08 t 0 first\n", 1),
    (b"+8 t 0 first\n", 1),
    (b"18446744073709551616 t 0 first\n", 1),
    (b"8 t 18446744073709551616 first\n", 1),
    (b"8  t 0 first\n", 1),
    (b"8 t 0 first \n", 1),
    (b"8 to 0 first\n", 1),
    (b"8 t 0 last\n", 1),
    (b"1 t 0 receive s -0\n", 1),
    (b"1 t 0 receive s 9223372036854775808\n", 1),
    (b"1 t 0 send o -9223372036854775809\n", 1),
    (b"1 t 0 send 5\n", 1),
    (b"9 t 0 end n=\n", 1),
    (b"9 t 0 end a=[]\n", 1),
    (b"9 t 0 end a=[1,02]\n", 1),
];

#[test]
fn bytes_that_are_no_trace(rt: HostRuntime) -> Result<(), Fail> {
    for (bytes, line) in NO_TRACES {
        assert!(rt; bytes.len() <= 100);
        assert_eq!(rt;
            read_trace(rt.alloc(), bytes).err(),
            Some(TraceFail::BadTrace { line })
        );
    }
    Ok(())
}
