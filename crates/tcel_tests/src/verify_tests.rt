use std::test::Fail;
use tcel_image::{ImageFail, decode, encode, in_range};
use tcel_verify::{Flaw, FlawKind, verify};

/// A task `t` that hands each input on and counts its frames, with unit costs.
const COUNTER: [u8; 256] = [
    84, 67, 69, 76, 1, 0, 0, 0, 1, 0, 0, 0, 1, 0, 0, 0, 1, 0, 0, 0, 1, 0, 0, 0, 1, 0, 0, 0, 1, 0,
    0, 0, 1, 0, 0, 0, 1, 0, 0, 0, 1, 0, 0, 0, 1, 0, 0, 0, 1, 0, 0, 0, 1, 0, 0, 0, 1, 0, 0, 0, 1, 0,
    0, 0, 1, 0, 0, 0, 1, 0, 0, 0, 1, 116, 10, 0, 0, 0, 0, 1, 0, 1, 115, 1, 0, 1, 111, 1, 0, 1, 110,
    0, 1, 0, 0, 0, 0, 0, 0, 0, 0, 0, 0, 0, 2, 0, 0, 0, 9, 0, 0, 0, 10, 0, 0, 0, 0, 0, 0, 0, 1, 0,
    0, 0, 0, 0, 0, 0, 2, 0, 0, 0, 1, 0, 0, 0, 0, 0, 0, 0, 0, 0, 0, 0, 11, 0, 1, 0, 0, 0, 0, 0, 0,
    0, 0, 0, 0, 0, 0, 0, 2, 0, 0, 0, 0, 0, 0, 0, 0, 0, 0, 0, 0, 0, 0, 0, 1, 0, 1, 0, 1, 0, 0, 0, 0,
    0, 0, 0, 0, 0, 0, 0, 6, 1, 2, 0, 0, 0, 0, 0, 0, 0, 0, 0, 0, 0, 0, 0, 3, 0, 1, 0, 0, 0, 0, 0, 0,
    0, 0, 0, 0, 0, 0, 0, 14, 0, 0, 0, 0, 0, 0, 0, 0, 0, 0, 0, 0, 0, 0, 0, 15, 0, 0, 0, 0, 0, 0, 0,
    0, 0, 0, 0, 0, 0, 0, 0,
];

/// Bytes of the image changed, each at its place, and the first flaw: its kind and its place.
const CHANGED: [(&[(usize, u8)], FlawKind, u32); 11] = [
    (&[(74, 0)], FlawKind::BadPeriod, 0),
    (
        &[(74, 1), (75, 202), (76, 154), (77, 59)],
        FlawKind::BadPeriod,
        0,
    ),
    (&[(86, 115)], FlawKind::SameName, 0),
    (&[(90, 115)], FlawKind::SameName, 0),
    (&[(224, 7), (228, 9)], FlawKind::JumpOut, 7),
    (&[(132, 2)], FlawKind::BadCell, 1),
    (&[(116, 1)], FlawKind::BadPort, 0),
    (&[(146, 0)], FlawKind::BadDepth, 1),
    (&[(240, 14)], FlawKind::FallsOff, 8),
    // The first of two flaws.
    (&[(116, 1), (132, 2)], FlawKind::BadPort, 0),
    (&[(74, 0), (86, 115)], FlawKind::BadPeriod, 0),
];

#[test]
fn first_flaws(rt: HostRuntime) -> Result<(), Fail> {
    for (changes, kind, pc) in CHANGED {
        let mut copy = COUNTER;
        for (place, byte) in changes {
            if let Some(slot) = copy.get_mut(*place) {
                *slot = *byte;
            }
        }
        let image = decode(rt.alloc(), &copy)?;
        assert!(rt; in_range(&image));
        let flaw = Flaw { kind, task: 0, pc };
        assert_eq!(rt; verify(image).err(), Some(flaw));
    }
    Ok(())
}

#[test]
fn a_valid_image(rt: HostRuntime) -> Result<(), Fail> {
    let image = decode(rt.alloc(), &COUNTER)?;
    assert!(rt; in_range(&image));
    let Ok(ready) = verify(image) else {
        return Err(Fail::new("valid"));
    };
    assert_eq!(rt; ready.image().tasks.len(), 1);
    let rows = ready.ports(rt.alloc())?;
    for row in &rows {
        assert_eq!(rt; row.task.bytes(), b"t".as_slice());
        assert_eq!(rt; row.inputs.len(), 1);
    }
    assert_eq!(rt; rows.len(), 1);
    Ok(())
}

/// Every byte of the image set to each of four values: the copy is refused, or spelled again as it is.
#[test]
fn changed_bytes(rt: HostRuntime) -> Result<(), Fail> {
    for place in 0..COUNTER.len() {
        for byte in [0, 1, 127, 255] {
            let mut copy = COUNTER;
            if let Some(slot) = copy.get_mut(place) {
                *slot = byte;
            }
            let image = match decode(rt.alloc(), &copy) {
                Ok(image) => image,
                Err(ImageFail::NoMemory) => return Err(Fail::new("memory")),
                Err(_) => continue,
            };
            assert!(rt; in_range(&image));
            let Ok(ready) = verify(image) else {
                continue;
            };
            let bytes = encode(rt.alloc(), ready.image())?;
            assert_eq!(rt; bytes.as_slice(), copy.as_slice(), "byte {place} is {byte}");
        }
    }
    Ok(())
}
