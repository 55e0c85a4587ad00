use crate::status::Status;
use crate::tests::{Fails, NONE, run_four};
use std::test::Fail;
use tcel_io::PutFail;

/// A task that counts and sends, and one that passes on what it receives, each every 20 ticks.
const PAIR: &str =
    "task p priority 2 { output o; state int n; every 20 { n := n + 1; send n to o; } } \
    task c priority 1 { input i; output r; local int x; every 20 { receive x from i; send x to r; } }";

/// The same with a deadline below the period, and a consumer that is released twice as often.
const SOON: &str =
    "task p priority 2 { output o; state int n; every 20 finish within 10 { n := n + 1; send n to o; } } \
    task c priority 1 { input i; output r; local int x; every 10 finish within 15 { receive x from i; send x to r; } }";

const LINK: &str = "p o c i\n";

/// Programs, scripts, numbers of ticks and traces, where the one link leads from p to c. The 2 that p sends at 26
/// is due at 40 or 30, and the script's values for the linked input are read and not used.
const TRACES: [(&str, &str, &str, &str); 4] = [
    (
        PAIR,
        "",
        "40",
        "6 p 0 send o 1\n7 p 0 first\n8 p 0 end n=1\n9 c 0 receive i 0\n11 c 0 send r 0\n12 c 0 first\n13 c 0 end\n\
        26 p 1 send o 2\n27 p 1 first\n28 p 1 end n=2\n29 c 1 receive i 1\n31 c 1 send r 1\n32 c 1 first\n33 c 1 end\n",
    ),
    (
        SOON,
        "",
        "20",
        "6 p 0 send o 1\n7 p 0 first\n8 p 0 end n=1\n9 c 0 receive i 0\n11 c 0 send r 0\n12 c 0 first\n13 c 0 end\n\
        14 c 1 receive i 1\n16 c 1 send r 1\n17 c 1 first\n18 c 1 end\n",
    ),
    (
        PAIR,
        "c i 7 8 9\n",
        "11",
        "6 p 0 send o 1\n7 p 0 first\n8 p 0 end n=1\n9 c 0 receive i 0\n11 c 0 send r 0\n",
    ),
    (PAIR, "", "0", ""),
];

/// Links, scripts and ticks over `PAIR` that are refused, with the exit status and the fault line.
const REFUSED: [(&str, &str, &str, u8, &str); 4] = [
    (
        "p o c i\np o c i\n",
        "q\n",
        "40",
        11,
        "links 2: input twice\n",
    ),
    ("p o c\n", "", "40", 11, "links 1: bad line\n"),
    (LINK, "q\n", "40", 10, "script 1: bad line\n"),
    (
        "p\n",
        "",
        "10000001",
        3,
        "limit: ticks 10000001 above 10000000\n",
    ),
];

#[test]
fn runs_linked_tasks(rt: HostRuntime) -> Result<(), Fail> {
    for (program, script, ticks, trace) in TRACES {
        let words = ["linked", "p", "t", "l", "s", ticks];
        let files = (program.as_bytes(), LINK.as_bytes(), script.as_bytes());
        let left = run_four(rt.alloc(), &words, files, NONE)?;
        assert_eq!(rt; left.out.bytes(), trace.as_bytes());
        assert_eq!(rt; left.err.bytes(), b"".as_slice());
        assert_eq!(rt; left.status, Status::Ok);
    }
    Ok(())
}

#[test]
fn refuses_links_before_scripts(rt: HostRuntime) -> Result<(), Fail> {
    for (links, script, ticks, code, line) in REFUSED {
        let words = ["linked", "p", "t", "l", "s", ticks];
        let files = (PAIR.as_bytes(), links.as_bytes(), script.as_bytes());
        let left = run_four(rt.alloc(), &words, files, NONE)?;
        assert_eq!(rt; left.out.bytes(), b"".as_slice());
        assert_eq!(rt; left.err.bytes(), line.as_bytes());
        assert_eq!(rt; left.status.code(), code);
    }
    Ok(())
}

#[test]
fn a_put_of_a_linked_run_that_fails_ends_it(rt: HostRuntime) -> Result<(), Fail> {
    let words = ["linked", "p", "t", "l", "s", "40"];
    let fails = Fails {
        out: Some(PutFail { call: 2, taken: 3 }),
        ..NONE
    };
    let files = (PAIR.as_bytes(), LINK.as_bytes(), b"".as_slice());
    let left = run_four(rt.alloc(), &words, files, fails)?;
    assert_eq!(rt; left.out.bytes(), b"6 p 0 send o 1\n7 p".as_slice());
    assert_eq!(rt; left.err.bytes(), b"write fault\n".as_slice());
    assert_eq!(rt; left.status, Status::WriteFault);
    Ok(())
}
