use std::test::Fail;
use tcel_image::{decode, in_range};
use tcel_machine::{Machine, What};
use tcel_script::read_script;
use tcel_verify::verify;

/// A task `t` of period 4 that hands each input on and counts its frames, with unit costs.
const COUNTER: [u8; 256] = [
    84, 67, 69, 76, 1, 0, 0, 0, 1, 0, 0, 0, 1, 0, 0, 0, 1, 0, 0, 0, 1, 0, 0, 0, 1, 0, 0, 0, 1, 0,
    0, 0, 1, 0, 0, 0, 1, 0, 0, 0, 1, 0, 0, 0, 1, 0, 0, 0, 1, 0, 0, 0, 1, 0, 0, 0, 1, 0, 0, 0, 1, 0,
    0, 0, 1, 0, 0, 0, 1, 0, 0, 0, 1, 116, 4, 0, 0, 0, 0, 1, 0, 1, 115, 1, 0, 1, 111, 1, 0, 1, 110,
    0, 1, 0, 0, 0, 0, 0, 0, 0, 0, 0, 0, 0, 2, 0, 0, 0, 9, 0, 0, 0, 10, 0, 0, 0, 0, 0, 0, 0, 1, 0,
    0, 0, 0, 0, 0, 0, 2, 0, 0, 0, 1, 0, 0, 0, 0, 0, 0, 0, 0, 0, 0, 0, 11, 0, 1, 0, 0, 0, 0, 0, 0,
    0, 0, 0, 0, 0, 0, 0, 2, 0, 0, 0, 0, 0, 0, 0, 0, 0, 0, 0, 0, 0, 0, 0, 1, 0, 1, 0, 1, 0, 0, 0, 0,
    0, 0, 0, 0, 0, 0, 0, 6, 1, 2, 0, 0, 0, 0, 0, 0, 0, 0, 0, 0, 0, 0, 0, 3, 0, 1, 0, 0, 0, 0, 0, 0,
    0, 0, 0, 0, 0, 0, 0, 14, 0, 0, 0, 0, 0, 0, 0, 0, 0, 0, 0, 0, 0, 0, 0, 15, 0, 0, 0, 0, 0, 0, 0,
    0, 0, 0, 0, 0, 0, 0, 0,
];

/// The entries of 20 ticks: time, frame, and what they show.
const ENTRIES: [(u64, u64, What); 9] = [
    (1, 0, What::Receive { port: 0, value: 5 }),
    (3, 0, What::Send { port: 0, value: 5 }),
    (8, 0, What::First),
    (9, 0, What::End),
    (10, 1, What::Receive { port: 0, value: 6 }),
    (12, 1, What::Send { port: 0, value: 6 }),
    (17, 1, What::First),
    (18, 1, What::End),
    (19, 2, What::Receive { port: 0, value: 0 }),
];

#[test]
fn frames_follow_one_another(rt: HostRuntime) -> Result<(), Fail> {
    let image = decode(rt.alloc(), &COUNTER)?;
    assert!(rt; in_range(&image));
    let Ok(ready) = verify(image) else {
        return Err(Fail::new("valid"));
    };
    let ports = ready.ports(rt.alloc())?;
    let script = read_script(rt.alloc(), b"t s 5 6\n", &ports)?;
    let mut machine = Machine::load(rt.alloc(), ready, script)?;
    let mut entries = ENTRIES.iter();
    for _ in 0..20 {
        assert!(rt; machine.now() < 1_000_000_000_000);
        if let Some(entry) = machine.tick() {
            let seen = (entry.time, entry.frame, entry.what);
            assert_eq!(rt; entries.next().copied(), Some(seen));
            assert_eq!(rt; entry.task, 0);
        }
    }
    assert_eq!(rt; entries.next().copied(), None);
    assert!(rt; machine.ready().image().tasks.len() == 1);
    assert_eq!(rt; machine.state(0), [2].as_slice());
    Ok(())
}
