use crate::status::{LimitFault, Status};
use crate::tool::tcel;
use std::alloc::{AllocError, Global};
use std::process::Abort;
use std::test::Fail;
use tcel_io::{MemFile, MemShelf, MemSink, PutFail};
use tcel_target::TargetFail;

pub(crate) const ECHO: &[u8] =
    b"task t priority 1 {\n  input s;\n  output o;\n  state int n;\n  local int x;\n  every 10 {\n    \
    receive x from s;\n    send x to o;\n    n := n + 1;\n  }\n}\n";

pub(crate) const UNIT: &[u8] =
    b"const = 1\nload = 1\nstore = 1\nload_at = 1\nstore_at = 1\narith = 1\nmultiply = 1\ndivide = 1\njump = 1\n\
    branch = 1\nloop = 1\nreceive = 1\nsend = 1\nmark = 1\nend = 1\n";

/// The image of `ECHO`, as docs/formats.md lists it.
const ECHO_IMAGE: [&[u8]; 26] = [
    b"TCEL",
    b"\x01\0\0\0",
    b"\x01\0\0\0",
    b"\x01\0\0\0\x01\0\0\0\x01\0\0\0\x01\0\0\0\x01\0\0\0",
    b"\x01\0\0\0\x01\0\0\0\x01\0\0\0\x01\0\0\0\x01\0\0\0",
    b"\x01\0\0\0\x01\0\0\0\x01\0\0\0\x01\0\0\0\x01\0\0\0",
    b"\x01t",
    b"\x0a\0\0\0",
    b"\0",
    b"\x01\0\x01s",
    b"\x01\0\x01o",
    b"\x01\0",
    b"\x01n\0\x01\0\0\0",
    b"\0\0\0\0\0\0\0\0",
    b"\x02\0\0\0",
    b"\x09\0\0\0",
    b"\x0a\0\0\0\0\0\0\0\x01\0\0\0\0\0\0\0",
    b"\x02\0\0\0\x01\0\0\0\0\0\0\0\0\0\0\0",
    b"\x0b\0\x01\0\0\0\0\0\0\0\0\0\0\0\0\0",
    b"\x02\0\0\0\0\0\0\0\0\0\0\0\0\0\0\0",
    b"\x01\0\x01\0\x01\0\0\0\0\0\0\0\0\0\0\0",
    b"\x06\x01\x02\0\0\0\0\0\0\0\0\0\0\0\0\0",
    b"\x03\0\x01\0\0\0\0\0\0\0\0\0\0\0\0\0",
    b"\x0e\0\0\0\0\0\0\0\0\0\0\0\0\0\0\0",
    b"\x0f\0\0\0\0\0\0\0\0\0\0\0\0\0\0\0",
    b"",
];

/// What a call leaves.
#[derive(Drop)]
pub(crate) struct Left {
    pub(crate) status: Status,
    pub(crate) out: MemSink,
    pub(crate) err: MemSink,
}

/// The room of the sinks, their puts that fail, and the load that fails.
#[derive(Drop)]
pub(crate) struct Fails {
    pub(crate) room: usize,
    pub(crate) out: Option<PutFail>,
    pub(crate) err: Option<PutFail>,
    pub(crate) load: Option<u64>,
}

pub(crate) const NONE: Fails = Fails {
    room: 1000,
    out: None,
    err: None,
    load: None,
};

pub(crate) const COMPILE: [&str; 3] = ["compile", "p", "t"];

fn sink(alloc: Global, room: usize, fail: Option<PutFail>) -> Result<MemSink, Fail> {
    let mut fails = Vec::new(alloc);
    if let Some(fail) = fail {
        fails.push(fail)?;
    }
    Ok(MemSink::new(alloc, room, fails).map_err(|_| "memory")?)
}

fn file(alloc: Global, name: &str, bytes: &[u8]) -> Result<MemFile, Fail> {
    Ok(MemFile {
        name: String::from_str(alloc, name)?,
        bytes: Vec::from_slice(alloc, bytes)?,
    })
}

fn call(alloc: Global, words: &[&str], files: Vec<MemFile>, fails: Fails) -> Result<Left, Fail> {
    let mut texts = Vec::new(alloc);
    for word in words {
        texts.push(String::from_str(alloc, *word)?)?;
    }
    let mut failing = Vec::new(alloc);
    if let Some(load) = fails.load {
        failing.push(load)?;
    }
    let mut shelf = MemShelf::new(alloc, files, failing);
    let mut out = sink(alloc, fails.room, fails.out)?;
    let mut err = sink(alloc, fails.room, fails.err)?;
    let status = tcel(alloc, &texts, &mut shelf, &mut out, &mut err);
    Ok(Left { status, out, err })
}

/// Runs the words over the files `p` and `t`.
pub(crate) fn run(
    alloc: Global,
    words: &[&str],
    (program, target): (&[u8], &[u8]),
    fails: Fails,
) -> Result<Left, Fail> {
    let files = vec![in alloc; file(alloc, "p", program)?, file(alloc, "t", target)?]?;
    call(alloc, words, files, fails)
}

/// Runs the words over the files `p`, `t` of unit costs, `l` of links or of a trace's lines, and `s`.
pub(crate) fn run_four(
    alloc: Global,
    words: &[&str],
    (program, lines, script): (&[u8], &[u8], &[u8]),
    fails: Fails,
) -> Result<Left, Fail> {
    let files = vec![in alloc;
        file(alloc, "p", program)?,
        file(alloc, "t", UNIT)?,
        file(alloc, "l", lines)?,
        file(alloc, "s", script)?,
    ]?;
    call(alloc, words, files, fails)
}

/// Compares what a call of `compile` leaves.
fn compare(
    rt: &(impl Abort + AllocGlobal),
    files: (&[u8], &[u8]),
    fails: Fails,
    (status, code): (Status, u8),
    (out, err): (&[u8], &[u8]),
) -> Result<(), Fail> {
    let left = run(rt.alloc(), &COMPILE, files, fails)?;
    assert_eq!(rt; left.status, status);
    assert_eq!(rt; left.status.code(), code);
    assert_eq!(rt; left.out.bytes(), out);
    assert_eq!(rt; left.err.bytes(), err);
    Ok(())
}

fn echo_image(alloc: Global) -> Result<Vec<u8>, AllocError> {
    let mut image = Vec::new(alloc);
    for part in ECHO_IMAGE {
        image.extend_from_slice(part)?;
    }
    Ok(image)
}

/// `ECHO` with another period.
fn echo_every(alloc: Global, period: &str) -> Result<String, AllocError> {
    format!(in alloc;
        "task t priority 1 {{\n  input s;\n  output o;\n  state int n;\n  local int x;\n  every {period} {{\n    \
        receive x from s;\n    send x to o;\n    n := n + 1;\n  }}\n}}\n"
    )
}

#[test]
fn compiles_the_example(rt: HostRuntime) -> Result<(), Fail> {
    let image = echo_image(rt.alloc())?;
    assert_eq!(rt; image.len(), 256);
    compare(&rt, (ECHO, UNIT), NONE, (Status::Ok, 0), (&image, b""))?;
    let cut = PutFail { call: 1, taken: 4 };
    let fails = Fails {
        out: Some(cut),
        ..NONE
    };
    compare(
        &rt,
        (ECHO, UNIT),
        fails,
        (Status::WriteFault, 6),
        (b"TCEL", b"write fault\n"),
    )
}

#[test]
fn bounds_the_cycles_by_the_period(rt: HostRuntime) -> Result<(), Fail> {
    let alloc = rt.alloc();
    let nine = run(
        alloc,
        &COMPILE,
        (echo_every(alloc, "9")?.as_bytes(), UNIT),
        NONE,
    )?;
    assert_eq!(rt; nine.status, Status::Ok);
    let status = Status::Overload {
        demand: 9,
        hyper: 8,
    };
    let line = b"rejected: overload demand 9 hyperperiod 8\n";
    let eight = echo_every(alloc, "8")?;
    compare(
        &rt,
        (eight.as_bytes(), UNIT),
        NONE,
        (status, 1),
        (b"", line),
    )
}

/// The lines of `UNIT`.
const LINES_OF_UNIT: [&str; 15] = [
    "const = 1\n",
    "load = 1\n",
    "store = 1\n",
    "load_at = 1\n",
    "store_at = 1\n",
    "arith = 1\n",
    "multiply = 1\n",
    "divide = 1\n",
    "jump = 1\n",
    "branch = 1\n",
    "loop = 1\n",
    "receive = 1\n",
    "send = 1\n",
    "mark = 1\n",
    "end = 1\n",
];

/// The number of the place behind these lines.
const BEHIND: usize = 15;

/// The target of unit costs, with another text in place of the line of this number.
fn target(alloc: Global, place: usize, by: &str) -> Result<String, AllocError> {
    let mut text = String::new(alloc);
    for (number, line) in LINES_OF_UNIT.iter().enumerate() {
        if number == place {
            text.push_str(by)?;
        } else {
            text.push_str(*line)?;
        }
    }
    if place == BEHIND {
        text.push_str(by)?;
    }
    Ok(text)
}

#[test]
fn refuses_targets(rt: HostRuntime) -> Result<(), Fail> {
    let rows = [
        (14, "", "target: missing end\n"),
        (12, "send = 0\n", "target: range send\n"),
        (BEHIND, "fast = 1\n", "target: strange fast\n"),
        (0, "const =\n", "target: not toml\n"),
        (BEHIND, "dispatch = 1001\n", "target: range dispatch\n"),
        (BEHIND, "end = 1\n", "target: not toml\n"),
        (13, "mark = 1.0\n", "target: range mark\n"),
        (13, "mark = '1'\n", "target: range mark\n"),
        (BEHIND, "[end]\n", "target: not toml\n"),
        (BEHIND, "[more]\nx = 1\n", "target: strange more\n"),
        (1, "load.at = 1\n", "target: range load\n"),
        (BEHIND, "zeta = 1\nB = 1\nb = 1\n", "target: strange B\n"),
    ];
    for (place, by, err) in rows {
        let text = target(rt.alloc(), place, by)?;
        let left = run(rt.alloc(), &COMPILE, (ECHO, text.as_bytes()), NONE)?;
        assert_eq!(rt; left.status.code(), 8);
        assert_eq!(rt; left.out.bytes(), b"".as_slice());
        assert_eq!(rt; left.err.bytes(), err.as_bytes());
    }
    Ok(())
}

#[test]
fn refuses_a_target_behind_its_program(rt: HostRuntime) -> Result<(), Fail> {
    let left = run(rt.alloc(), &COMPILE, (b"", b"const ="), NONE)?;
    assert_eq!(rt;
        left.err.bytes(),
        b"program 1:1: unexpected token\n".as_slice()
    );
    // A byte that is no UTF-8 is in no document.
    compare(
        &rt,
        (ECHO, b"# \xff\n"),
        NONE,
        (Status::Target(TargetFail::NotToml), 8),
        (b"", b"target: not toml\n"),
    )
}

/// `ECHO` with a period, compiled for the target of unit costs with another text in place of a line.
fn compiled(alloc: Global, period: &str, place: usize, by: &str) -> Result<Left, Fail> {
    let program = echo_every(alloc, period)?;
    let text = target(alloc, place, by)?;
    run(alloc, &COMPILE, (program.as_bytes(), text.as_bytes()), NONE)
}

#[test]
fn compiles_for_the_same_costs(rt: HostRuntime) -> Result<(), Fail> {
    let rows = [
        (BEHIND, "dispatch = 0\n"),
        (BEHIND, "# end"),
        (0, "\r\n# costs\r\n\r\nconst = 1 # one\r\n"),
    ];
    let image = echo_image(rt.alloc())?;
    for (place, by) in rows {
        let left = compiled(rt.alloc(), "10", place, by)?;
        assert_eq!(rt; left.status, Status::Ok);
        assert_eq!(rt; left.out.bytes(), image.as_slice());
    }
    Ok(())
}

#[test]
fn bounds_the_cycles_of_other_costs(rt: HostRuntime) -> Result<(), Fail> {
    let rows = [
        (
            1,
            "load = 2\n",
            "10",
            "rejected: overload demand 11 hyperperiod 10\n",
        ),
        (1, "load = 2\n", "11", ""),
        (
            BEHIND,
            "dispatch = 3\n",
            "10",
            "rejected: overload demand 12 hyperperiod 10\n",
        ),
        (BEHIND, "dispatch = 3\n", "12", ""),
        (
            12,
            "send = 1000\ndispatch = 1000\n",
            "2007",
            "rejected: overload demand 2008 hyperperiod 2007\n",
        ),
        (12, "send = 1000\ndispatch = 1000\n", "2008", ""),
    ];
    for (place, by, period, err) in rows {
        let left = compiled(rt.alloc(), period, place, by)?;
        assert_eq!(rt; left.err.bytes(), err.as_bytes());
        assert_eq!(rt; left.status.code() == 0, err.is_empty());
    }
    Ok(())
}

#[test]
fn runs_what_other_targets_cost(rt: HostRuntime) -> Result<(), Fail> {
    let rows = [
        (
            1,
            "load = 2\n",
            "11",
            "1 t 0 receive s 5\n4 t 0 send o 5\n10 t 0 first\n11 t 0 end n=1\n12 t 1 receive s 6\n",
        ),
        (
            BEHIND,
            "dispatch = 3\n",
            "12",
            "4 t 0 receive s 5\n6 t 0 send o 5\n11 t 0 first\n12 t 0 end n=1\n",
        ),
    ];
    for (place, by, period, lines) in rows {
        let image = compiled(rt.alloc(), period, place, by)?;
        let left = run(
            rt.alloc(),
            &["run", "p", "t", "12"],
            (image.out.bytes(), SCRIPT),
            NONE,
        )?;
        assert_eq!(rt; left.status, Status::Ok);
        assert_eq!(rt; left.out.bytes(), lines.as_bytes());
    }
    Ok(())
}

/// Runs an image for 12 ticks, which has a bad field at 72.
fn refuse_dispatch(rt: &(impl Abort + AllocGlobal), image: &[u8]) -> Result<(), Fail> {
    let left = run(rt.alloc(), &["run", "p", "t", "12"], (image, SCRIPT), NONE)?;
    assert_eq!(rt; left.status.code(), 9);
    assert_eq!(rt; left.err.bytes(), b"image: bad field at 72\n".as_slice());
    Ok(())
}

#[test]
fn spells_a_dispatch_cost(rt: HostRuntime) -> Result<(), Fail> {
    let left = compiled(rt.alloc(), "12", BEHIND, "dispatch = 3\n")?;
    let mut image = Vec::from_slice(rt.alloc(), left.out.bytes())?;
    assert_eq!(rt; image.len(), 260);
    let known = [(4, 2), (72, 3), (73, 0), (74, 0), (75, 0), (78, 12)];
    for (at, byte) in known {
        assert_eq!(rt; image.get(at).copied(), Some(byte));
    }
    *image.get_mut(72).ok_or("place")? = 0;
    refuse_dispatch(&rt, &image)?;
    let mut second = echo_image(rt.alloc())?;
    *second.get_mut(4).ok_or("place")? = 2;
    refuse_dispatch(&rt, &second)
}

#[test]
fn refuses_loads_of_a_compilation(rt: HostRuntime) -> Result<(), Fail> {
    let rows = [(1, 1, "read fault: p\n"), (2, 2, "read fault: t\n")];
    for (load, word, line) in rows {
        let fails = Fails {
            load: Some(load),
            ..NONE
        };
        let status = Status::ReadFault { word };
        compare(
            &rt,
            (ECHO, UNIT),
            fails,
            (status, 5),
            (b"", line.as_bytes()),
        )?;
    }
    Ok(())
}

#[test]
fn refuses_a_long_target(rt: HostRuntime) -> Result<(), Fail> {
    let alloc = rt.alloc();
    let long = vec![in alloc; b' '; 65_537]?;
    let status = Status::Limit(LimitFault::Bytes {
        word: 2,
        limit: 65_536,
    });
    let line = b"limit: bytes of t above 65536\n";
    compare(&rt, (ECHO, &long), NONE, (status, 3), (b"", line))
}

#[test]
fn refuses_words(rt: HostRuntime) -> Result<(), Fail> {
    let line = b"words: no command has this form\n".as_slice();
    let wrong: [&[&str]; 4] = [
        &[],
        &["compile", "p"],
        &["compile", "p", "t", "t"],
        &["run", "p", "t"],
    ];
    for words in wrong {
        let left = run(rt.alloc(), words, (ECHO, UNIT), NONE)?;
        assert_eq!(rt; left.status, Status::Words);
        assert_eq!(rt; left.status.code(), 4);
        assert_eq!(rt; left.err.bytes(), line);
    }
    let cut = PutFail { call: 1, taken: 3 };
    let left = run(
        rt.alloc(),
        &[],
        (ECHO, UNIT),
        Fails {
            err: Some(cut),
            ..NONE
        },
    )?;
    assert_eq!(rt; left.status, Status::Words);
    assert_eq!(rt; left.err.bytes(), b"wor".as_slice());
    Ok(())
}

const SCRIPT: &[u8] = b"t s 5 6\n";

/// The lines of 20 ticks of the example.
const LINES: [&str; 8] = [
    "1 t 0 receive s 5\n",
    "3 t 0 send o 5\n",
    "8 t 0 first\n",
    "9 t 0 end n=1\n",
    "11 t 1 receive s 6\n",
    "13 t 1 send o 6\n",
    "18 t 1 first\n",
    "19 t 1 end n=2\n",
];

/// Runs the example for so many ticks.
fn run_example(alloc: Global, ticks: &str, fails: Fails) -> Result<Left, Fail> {
    let image = echo_image(alloc)?;
    run(alloc, &["run", "p", "t", ticks], (&image, SCRIPT), fails)
}

/// The first so many lines, and what follows them.
fn first_lines(alloc: Global, count: usize, more: &str) -> Result<String, AllocError> {
    let mut text = String::new(alloc);
    for line in LINES.iter().take(count) {
        text.push_str(*line)?;
    }
    text.push_str(more)?;
    Ok(text)
}

#[test]
fn runs_the_example(rt: HostRuntime) -> Result<(), Fail> {
    let rows = [
        ("0", 0),
        ("1", 1),
        ("2", 1),
        ("3", 2),
        ("000000000000000010", 4),
        ("20", 8),
    ];
    for (ticks, count) in rows {
        let left = run_example(rt.alloc(), ticks, NONE)?;
        assert_eq!(rt; left.status, Status::Ok);
        assert_eq!(rt;
            left.out.bytes(),
            first_lines(rt.alloc(), count, "")?.as_bytes()
        );
        assert_eq!(rt; left.err.bytes(), b"".as_slice());
    }
    Ok(())
}

#[test]
fn stops_a_run_at_a_fault(rt: HostRuntime) -> Result<(), Fail> {
    let rows = [
        (1, 0, 0, ""),
        (2, 0, 1, ""),
        (3, 0, 2, ""),
        (4, 0, 3, ""),
        (3, 4, 2, "8 t "),
    ];
    for (call, taken, count, more) in rows {
        let fails = Fails {
            out: Some(PutFail { call, taken }),
            ..NONE
        };
        let left = run_example(rt.alloc(), "10", fails)?;
        assert_eq!(rt; left.status, Status::WriteFault);
        assert_eq!(rt; left.status.code(), 6);
        assert_eq!(rt;
            left.out.bytes(),
            first_lines(rt.alloc(), count, more)?.as_bytes()
        );
        assert_eq!(rt; left.err.bytes(), b"write fault\n".as_slice());
    }
    Ok(())
}

#[test]
fn refuses_ticks(rt: HostRuntime) -> Result<(), Fail> {
    let rows = [
        ("10000001", 3, "limit: ticks 10000001 above 10000000\n"),
        (
            "999999999999999999",
            3,
            "limit: ticks 999999999999999999 above 10000000\n",
        ),
        (
            "1000000000000000000",
            4,
            "words: no command has this form\n",
        ),
        ("", 4, "words: no command has this form\n"),
        ("+1", 4, "words: no command has this form\n"),
        ("1a", 4, "words: no command has this form\n"),
    ];
    for (ticks, code, line) in rows {
        let fails = Fails {
            load: Some(1),
            ..NONE
        };
        let left = run_example(rt.alloc(), ticks, fails)?;
        assert_eq!(rt; left.status.code(), code);
        assert_eq!(rt; left.out.bytes(), b"".as_slice());
        assert_eq!(rt; left.err.bytes(), line.as_bytes());
    }
    Ok(())
}

#[test]
fn refuses_loads_of_a_run(rt: HostRuntime) -> Result<(), Fail> {
    for (load, line) in [(1, "read fault: p\n"), (2, "read fault: t\n")] {
        let fails = Fails {
            load: Some(load),
            ..NONE
        };
        let left = run_example(rt.alloc(), "10", fails)?;
        assert_eq!(rt; left.status.code(), 5);
        assert_eq!(rt; left.out.bytes(), b"".as_slice());
        assert_eq!(rt; left.err.bytes(), line.as_bytes());
    }
    Ok(())
}

#[test]
fn refuses_images(rt: HostRuntime) -> Result<(), Fail> {
    let rows: [(&[(usize, u8)], &str); 10] = [
        (&[(0, b't')], "image: bad magic\n"),
        (&[(8, 2)], "image: short at 256\n"),
        (&[(4, 3)], "image: bad field at 4\n"),
        (&[(108, 8)], "image: extra at 240\n"),
        (&[(74, 0)], "image: bad period task 0 pc 0\n"),
        (&[(86, b's')], "image: same name task 0 pc 0\n"),
        (&[(224, 7), (228, 9)], "image: jump out task 0 pc 7\n"),
        (&[(132, 2)], "image: bad cell task 0 pc 1\n"),
        (&[(146, 0)], "image: bad depth task 0 pc 1\n"),
        (&[(240, 14)], "image: falls off task 0 pc 8\n"),
    ];
    for (edits, line) in rows {
        let mut image = echo_image(rt.alloc())?;
        for (at, byte) in edits {
            *image.get_mut(*at).ok_or("place")? = *byte;
        }
        let left = run(rt.alloc(), &["run", "p", "t", "10"], (&image, b"u\n"), NONE)?;
        assert_eq!(rt; left.status.code(), 9);
        assert_eq!(rt; left.out.bytes(), b"".as_slice());
        assert_eq!(rt; left.err.bytes(), line.as_bytes());
    }
    Ok(())
}

#[test]
fn refuses_scripts(rt: HostRuntime) -> Result<(), Fail> {
    let rows = [
        ("t\n", "script 1: bad line\n"),
        ("u s 1\n", "script 1: no port\n"),
        ("t o 1\n", "script 1: no port\n"),
        ("t s 1\nt s 2\n", "script 2: port twice\n"),
        ("t s x\n", "script 1: number\n"),
    ];
    let image = echo_image(rt.alloc())?;
    for (script, line) in rows {
        let left = run(
            rt.alloc(),
            &["run", "p", "t", "10"],
            (&image, script.as_bytes()),
            NONE,
        )?;
        assert_eq!(rt; left.status.code(), 10);
        assert_eq!(rt; left.out.bytes(), b"".as_slice());
        assert_eq!(rt; left.err.bytes(), line.as_bytes());
    }
    Ok(())
}
