use sqlite_items::Items;
use std::alloc::Global;
use std::process::Abort;
use std::test::Fail;
use tcel_image::{
    Image, ImageFail, ImageState, ImageTask, Instr, Line, StateKind, decode, encode, in_range,
};
use tcel_num::{Name, Op};
use tcel_target::{CostKey, Costs};

/// A task `t` that hands each input on and counts its frames, with unit costs.
const COUNTER: [u8; 256] = [
    84, 67, 69, 76, 1, 0, 0, 0, 1, 0, 0, 0, 1, 0, 0, 0, 1, 0, 0, 0, 1, 0, 0, 0, 1, 0, 0, 0, 1, 0,
    0, 0, 1, 0, 0, 0, 1, 0, 0, 0, 1, 0, 0, 0, 1, 0, 0, 0, 1, 0, 0, 0, 1, 0, 0, 0, 1, 0, 0, 0, 1, 0,
    0, 0, 1, 0, 0, 0, 1, 0, 0, 0, 1, 116, 10, 0, 0, 0, 0, 1, 0, 1, 115, 1, 0, 1, 111, 1, 0, 1, 110,
    0, 1, 0, 0, 0, 0, 0, 0, 0, 0, 0, 0, 0, 2, 0, 0, 0, 9, 0, 0, 0, 10, 0, 0, 0, 0, 0, 0, 0, 1, 0,
    0, 0, 0, 0, 0, 0, 2, 0, 0, 0, 1, 0, 0, 0, 0, 0, 0, 0, 0, 0, 0, 0, 11, 0, 1, 0, 0, 0, 0, 0, 0,
    0, 0, 0, 0, 0, 0, 0, 2, 0, 0, 0, 0, 0, 0, 0, 0, 0, 0, 0, 0, 0, 0, 0, 1, 0, 1, 0, 1, 0, 0, 0, 0,
    0, 0, 0, 0, 0, 0, 0, 6, 1, 2, 0, 0, 0, 0, 0, 0, 0, 0, 0, 0, 0, 0, 0, 3, 0, 1, 0, 0, 0, 0, 0, 0,
    0, 0, 0, 0, 0, 0, 0, 14, 0, 0, 0, 0, 0, 0, 0, 0, 0, 0, 0, 0, 0, 0, 0, 15, 0, 0, 0, 0, 0, 0, 0,
    0, 0, 0, 0, 0, 0, 0, 0,
];

#[test]
fn counter_both_ways(rt: HostRuntime) -> Result<(), Fail> {
    let image = decode(rt.alloc(), &COUNTER)?;
    assert!(rt; in_range(&image));
    assert_eq!(rt; image.costs, Costs::unit());
    for task in image.tasks.as_slice() {
        assert_eq!(rt; task.name.bytes(), b"t".as_slice());
        assert_eq!(rt; (task.period, task.sliced, task.cells), (10, false, 2));
        assert_eq!(rt;
            (task.inputs.len(), task.outputs.len(), task.states.len()),
            (1, 1, 1)
        );
        assert_eq!(rt; task.code.len(), 9);
        let add = Line {
            instr: Instr::Arith(Op::Add),
            depth: 2,
        };
        assert_eq!(rt; task.code.get(5).copied(), Some(add));
    }
    let bytes = encode(rt.alloc(), &image)?;
    assert_eq!(rt; bytes.as_slice(), COUNTER.as_slice());
    Ok(())
}

/// One byte of the image changed: its place, its new value, and the first fault.
const CHANGED: [(usize, u8, Option<ImageFail>); 35] = [
    (0, 0, Some(ImageFail::BadMagic)),
    (4, 3, Some(ImageFail::BadField { at: 4 })),
    // Version 2 has a cost of dispatch behind the others, and here the bytes are none.
    (4, 2, Some(ImageFail::BadField { at: 72 })),
    (8, 0, Some(ImageFail::BadField { at: 8 })),
    (8, 17, Some(ImageFail::BadField { at: 8 })),
    (8, 2, Some(ImageFail::Short { at: 256 })),
    (12, 0, Some(ImageFail::BadField { at: 12 })),
    (69, 4, Some(ImageFail::BadField { at: 68 })),
    // The name: a wrong length, a byte that no name has.
    (72, 0, Some(ImageFail::BadField { at: 72 })),
    (72, 33, Some(ImageFail::BadField { at: 72 })),
    (72, 2, Some(ImageFail::BadField { at: 74 })),
    (73, 32, Some(ImageFail::BadField { at: 73 })),
    (73, 49, Some(ImageFail::BadField { at: 73 })),
    // A period of 0 is another's concern.
    (74, 0, None),
    (78, 2, Some(ImageFail::BadField { at: 78 })),
    (80, 2, Some(ImageFail::BadField { at: 79 })),
    (84, 2, Some(ImageFail::BadField { at: 83 })),
    (88, 2, Some(ImageFail::BadField { at: 87 })),
    // The state: its kind, and its number of words.
    (91, 3, Some(ImageFail::BadField { at: 91 })),
    (92, 2, Some(ImageFail::BadField { at: 92 })),
    (93, 1, Some(ImageFail::BadField { at: 92 })),
    (104, 0, Some(ImageFail::BadField { at: 104 })),
    (106, 1, Some(ImageFail::BadField { at: 104 })),
    (108, 0, Some(ImageFail::BadField { at: 108 })),
    (108, 8, Some(ImageFail::Extra { at: 240 })),
    (108, 10, Some(ImageFail::Short { at: 256 })),
    // Instructions: opcode, operator, operands.
    (112, 0, Some(ImageFail::BadField { at: 112 })),
    (112, 16, Some(ImageFail::BadField { at: 112 })),
    (112, 7, Some(ImageFail::BadField { at: 120 })),
    (113, 1, Some(ImageFail::BadField { at: 113 })),
    (146, 0, None),
    (188, 1, Some(ImageFail::BadField { at: 188 })),
    (193, 16, Some(ImageFail::BadField { at: 193 })),
    (255, 1, Some(ImageFail::BadField { at: 252 })),
    (240, 14, None),
];

#[test]
fn changed_copies(rt: HostRuntime) {
    for (place, byte, fault) in CHANGED {
        let mut copy = COUNTER;
        if let Some(slot) = copy.get_mut(place) {
            *slot = byte;
        }
        assert_eq!(rt;
            decode(rt.alloc(), &copy).err(),
            fault,
            "byte {place} is {byte}"
        );
    }
}

/// The first bytes of the image alone, and where they are short.
#[test]
fn cut_copies(rt: HostRuntime) {
    for len in [0, 3] {
        assert_eq!(rt;
            decode(rt.alloc(), &COUNTER[..len]).err(),
            Some(ImageFail::BadMagic)
        );
    }
    for len in [4, 7, 12, 72, 73, 90, 100, 112, 113, 115, 122, 184, 255] {
        assert_eq!(rt;
            decode(rt.alloc(), &COUNTER[..len]).err(),
            Some(ImageFail::Short { at: len })
        );
    }
    // A field that is cut is short whatever its bytes hold.
    let mut copy = COUNTER;
    copy[8] = 255;
    assert_eq!(rt;
        decode(rt.alloc(), &copy[..10]).err(),
        Some(ImageFail::Short { at: 10 })
    );
    copy[4] = 3;
    assert_eq!(rt;
        decode(rt.alloc(), &copy[..10]).err(),
        Some(ImageFail::BadField { at: 4 })
    );
}

/// The image with the bytes from 72 on replaced by another name and then the rest.
fn named(alloc: Global, name: &[u8]) -> Result<Vec<u8>, Fail> {
    let mut bytes = Vec::from_slice(alloc, &COUNTER[..72])?;
    bytes.push((name.len() % 256) as u8)?;
    bytes.extend_from_slice(name)?;
    bytes.extend_from_slice(&COUNTER[74..])?;
    Ok(bytes)
}

#[test]
fn names(rt: HostRuntime) -> Result<(), Fail> {
    let rows: [(&[u8], Option<ImageFail>); 6] = [
        (b"_t9", None),
        (b"abcdefghijklmnopqrstuvwxyz012345", None),
        (
            b"abcdefghijklmnopqrstuvwxyz0123456",
            Some(ImageFail::BadField { at: 72 }),
        ),
        (b"task", Some(ImageFail::BadField { at: 72 })),
        (b"ab-c", Some(ImageFail::BadField { at: 75 })),
        (b"1task", Some(ImageFail::BadField { at: 73 })),
    ];
    for (name, fault) in rows {
        let bytes = named(rt.alloc(), name)?;
        assert_eq!(rt; decode(rt.alloc(), &bytes).err(), fault);
    }
    let mut more = named(rt.alloc(), b"t")?;
    more.push(0)?;
    assert_eq!(rt;
        decode(rt.alloc(), &more).err(),
        Some(ImageFail::Extra { at: 256 })
    );
    Ok(())
}

const EVERY: [Line; 15] = [
    Line {
        instr: Instr::Const(i64::MIN),
        depth: 0,
    },
    Line {
        instr: Instr::Get(u32::MAX),
        depth: 1,
    },
    Line {
        instr: Instr::Put(1),
        depth: 2,
    },
    Line {
        instr: Instr::GetAt(2, 4096),
        depth: 3,
    },
    Line {
        instr: Instr::PutAt(3, 1),
        depth: 4,
    },
    Line {
        instr: Instr::Arith(Op::GreaterOrEqual),
        depth: 5,
    },
    Line {
        instr: Instr::Jump(4),
        depth: 6,
    },
    Line {
        instr: Instr::Branch(5),
        depth: 7,
    },
    Line {
        instr: Instr::Loop(6, 7, 8),
        depth: 8,
    },
    Line {
        instr: Instr::Receive(9, 10),
        depth: 9,
    },
    Line {
        instr: Instr::Send(11),
        depth: 10,
    },
    Line {
        instr: Instr::Hold(1_000_000_000),
        depth: 11,
    },
    Line {
        instr: Instr::Copy(12, 13, 14),
        depth: 12,
    },
    Line {
        instr: Instr::Mark,
        depth: 13,
    },
    Line {
        instr: Instr::End,
        depth: u16::MAX,
    },
];

fn state(alloc: Global, name: &[u8], kind: StateKind, first: &[i64]) -> Result<ImageState, Fail> {
    Ok(ImageState {
        name: Name::new(name).ok_or("a name")?,
        kind,
        words: (first.len() % 4096) as u32,
        first: Items::from_slice(alloc, first)?,
    })
}

fn task(alloc: Global, name: &[u8]) -> Result<ImageTask, Fail> {
    let mut states = Items::new(alloc);
    states.push(state(alloc, b"a", StateKind::Array, &[i64::MAX, -1, 0])?)?;
    states.push(state(alloc, b"b", StateKind::Bool, &[1])?)?;
    Ok(ImageTask {
        name: Name::new(name).ok_or("a name")?,
        period: u32::MAX,
        sliced: true,
        inputs: Items::from_slice(
            alloc,
            &[
                Name::new(b"p").ok_or("a name")?,
                Name::new(b"q").ok_or("a name")?,
            ],
        )?,
        outputs: Items::new(alloc),
        states,
        cells: 4,
        code: Items::from_slice(alloc, &EVERY)?,
    })
}

// Compares what the bytes spell, and its bytes again.
fn compare(rt: &(impl Abort + AllocGlobal), bytes: &[u8], costs: Costs) -> Result<(), Fail> {
    let again = decode(rt.alloc(), bytes)?;
    assert_eq!(rt; (again.costs, again.tasks.len()), (costs, 2));
    for task in again.tasks.as_slice() {
        assert_eq!(rt; task.code.as_slice(), EVERY.as_slice());
        for state in task.states.as_slice() {
            assert!(rt; state.words == 1 || state.first.as_slice() == [i64::MAX, -1, 0].as_slice());
        }
    }
    let bytes_again = encode(rt.alloc(), &again)?;
    assert_eq!(rt; bytes_again.as_slice(), bytes);
    Ok(())
}

#[test]
fn every_instruction(rt: HostRuntime) -> Result<(), Fail> {
    let mut costs = Costs::unit();
    costs.set(CostKey::End, 1000);
    costs.set(CostKey::Const, 7);
    costs.set(CostKey::Dispatch, 1000);
    let mut tasks = Items::new(rt.alloc());
    tasks.push(task(rt.alloc(), b"high")?)?;
    tasks.push(task(rt.alloc(), b"low")?)?;
    let image = Image { costs, tasks };
    assert!(rt; in_range(&image));
    let bytes = encode(rt.alloc(), &image)?;
    assert_eq!(rt; bytes.get(4..8), Some(b"\x02\0\0\0".as_slice()));
    assert_eq!(rt; bytes.get(72..76), Some(b"\xe8\x03\0\0".as_slice()));
    compare(&rt, &bytes, costs)
}

#[test]
fn out_of_range(rt: HostRuntime) -> Result<(), Fail> {
    let mut tasks = Items::new(rt.alloc());
    let mut none = task(rt.alloc(), b"t")?;
    none.cells = 3;
    tasks.push(none)?;
    let image = Image {
        costs: Costs::unit(),
        tasks,
    };
    assert!(rt; !in_range(&image), "fewer cells than words of states");
    Ok(())
}
