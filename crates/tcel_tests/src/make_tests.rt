use std::test::Fail;
use tcel_make::{make, make_script};

const FIVE_LINES: &[u8] =
    b"    n := n + x;\n    n := n + x;\n    n := n + x;\n    n := n + x;\n    n := n + x;\n";

/// The program of seed 1 with two tasks.
const PROGRAM: [&[u8]; 14] = [
    b"task t0 priority 100 {\n  input s;\n  output o;\n  state int n;\n  local int x;\n  local int i;\n",
    b"  every 4000 finish within 100 {\n    receive x from s;\n    send x + 0 to o;\n    for i < 2 {\n      n := n + x;\n    }\n",
    FIVE_LINES,
    FIVE_LINES,
    FIVE_LINES,
    FIVE_LINES,
    b"  }\n}\n",
    b"task t1 priority 99 {\n  input s;\n  output o;\n  state int n;\n  local int x;\n  local int i;\n",
    b"  every 8000 finish within 240 {\n    receive x from s;\n    send x + 1 to o;\n    for i < 5 {\n      n := n + x;\n    }\n",
    FIVE_LINES,
    FIVE_LINES,
    FIVE_LINES,
    FIVE_LINES,
    b"  }\n}\n",
];

#[test]
fn two_tasks(rt: HostRuntime) -> Result<(), Fail> {
    let mut expected = Vec::new(rt.alloc());
    for piece in PROGRAM {
        expected.extend_from_slice(piece)?;
    }
    let text = make(rt.alloc(), 1, 2)?;
    assert_eq!(rt; text.as_slice(), expected.as_slice());
    Ok(())
}

/// A seed, a number of tasks, and the length of the program in bytes.
const PROGRAMS: [(u64, u8, usize); 3] = [
    (0, 1, 533),
    (0, 16, 8539),
    (18446744073709551615, 16, 8539),
];

#[test]
fn lengths_of_programs(rt: HostRuntime) -> Result<(), Fail> {
    for (seed, tasks, length) in PROGRAMS {
        assert!(rt; 1 <= tasks && tasks <= 16);
        let text = make(rt.alloc(), seed, tasks)?;
        assert_eq!(rt; text.len(), length);
    }
    Ok(())
}

/// A number of tasks, the length of the script in bytes, and its last values.
const SCRIPTS: [(u8, usize, &[u8]); 2] = [(1, 297, b" 99 100\n"), (16, 6287, b" 1584 1600\n")];

#[test]
fn first_and_last_values(rt: HostRuntime) -> Result<(), Fail> {
    for (tasks, length, last) in SCRIPTS {
        assert!(rt; 1 <= tasks && tasks <= 16);
        let text = make_script(rt.alloc(), tasks)?;
        assert!(rt; text.as_slice().starts_with(b"t0 s 1 2 3 "));
        assert!(rt; text.as_slice().ends_with(last));
        assert_eq!(rt; text.len(), length);
    }
    Ok(())
}
