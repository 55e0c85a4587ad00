use crate::status::Status;
use crate::tests::{NONE, run};
use std::test::Fail;

/// Runs of made programs, and their summaries.
const TRIALS: [([&str; 4], &str); 5] = [
    (
        ["trial", "1", "2", "4000"],
        "tasks 2\nsliced 2\nticks 4000\nevents 4\nframes 2\nsum 4\n",
    ),
    (
        ["trial", "1", "1", "0"],
        "tasks 1\nsliced 1\nticks 0\nevents 0\nframes 0\nsum 0\n",
    ),
    (
        ["trial", "1", "01", "4"],
        "tasks 1\nsliced 1\nticks 4\nevents 1\nframes 0\nsum 0\n",
    ),
    (
        ["trial", "1", "1", "5"],
        "tasks 1\nsliced 1\nticks 5\nevents 2\nframes 0\nsum 1\n",
    ),
    (
        ["trial", "1", "1", "4005"],
        "tasks 1\nsliced 1\nticks 4005\nevents 4\nframes 1\nsum 3\n",
    ),
];

/// Words of which nothing is made, with the exit status and the fault line.
const REFUSED: [([&str; 4], u8, &str); 3] = [
    (
        ["trial", "1", "0", "5"],
        4,
        "words: no command has this form\n",
    ),
    (
        ["trial", "1", "17", "10000001"],
        3,
        "limit: made tasks 17 above 16\n",
    ),
    (
        ["trial", "1", "16", "10000001"],
        3,
        "limit: ticks 10000001 above 10000000\n",
    ),
];

#[test]
fn sums_up_runs(rt: HostRuntime) -> Result<(), Fail> {
    for (words, summary) in TRIALS {
        let left = run(rt.alloc(), &words, (b"", b""), NONE)?;
        assert_eq!(rt; left.out.bytes(), summary.as_bytes());
        assert_eq!(rt; left.err.bytes(), b"".as_slice());
        assert_eq!(rt; left.status, Status::Ok);
    }
    Ok(())
}

#[test]
fn bounds_tasks_and_then_ticks(rt: HostRuntime) -> Result<(), Fail> {
    for (words, code, line) in REFUSED {
        let left = run(rt.alloc(), &words, (b"", b""), NONE)?;
        assert_eq!(rt; left.status.code(), code);
        assert_eq!(rt; left.err.bytes(), line.as_bytes());
        assert_eq!(rt; left.out.bytes(), b"".as_slice());
    }
    Ok(())
}
