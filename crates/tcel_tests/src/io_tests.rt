ghost use Rattle.std.specs.Prelude.{[], ◌∷◌, OnErr, OnOk};
ghost use Rattle.tcel_io.specs.InTurn.{AreCutOff, AreTaken};

use std::alloc::{AllocError, Global};
use std::fs;
use std::process::Abort;
use std::test::Fail;
use tcel_io::{
    HostShelf, HostSink, LoadFail, MemFile, MemShelf, MemSink, PutFail, Shelf, Sink, SinkFault,
};

fn file(alloc: Global, name: &str, bytes: &[u8]) -> Result<MemFile, AllocError> {
    Ok(MemFile {
        name: String::from_str(alloc, name)?,
        bytes: Vec::from_slice(alloc, bytes)?,
    })
}

/// Loads a file behind what is in `into`, and compares what stands there then.
fn load_and_compare<H: Shelf>(
    rt: &impl Abort,
    shelf: &mut H,
    into: &mut Vec<u8>,
    (name, limit): (&str, usize),
    (answer, bytes): (Result<(), LoadFail>, &[u8]),
) {
    assert_eq!(rt; shelf.load(name, limit, into), answer, "{name} {limit}");
    assert_eq!(rt; into.as_slice(), bytes, "{name} {limit}");
}

#[test]
fn loads_from_memory(rt: HostRuntime) -> Result<(), Fail> {
    let alloc = rt.alloc();
    let files = vec![in alloc;
        file(alloc, "a", b"abc")?,
        file(alloc, "a", b"second")?,
        file(alloc, "b", b"")?,
    ]?;
    let mut shelf = MemShelf::new(alloc, files, vec![in alloc; 7, 3]?);
    let mut into = Vec::from_slice(alloc, b"<")?;
    let cases: [(&str, usize, Result<(), LoadFail>, &[u8]); 7] = [
        ("a", 3, Ok(()), b"<abc"),
        ("a", 2, Err(LoadFail::TooLong), b"<abc"),
        ("a", 3, Err(LoadFail::Fault), b"<abc"),
        ("c", 9, Err(LoadFail::Fault), b"<abc"),
        ("b", 0, Ok(()), b"<abc"),
        ("a", 99, Ok(()), b"<abcabc"),
        ("b", 0, Err(LoadFail::Fault), b"<abcabc"),
    ];
    for (name, limit, answer, bytes) in cases {
        load_and_compare(&rt, &mut shelf, &mut into, (name, limit), (answer, bytes));
    }
    Ok(())
}

#[test]
fn loads_files_of_the_host(rt: HostRuntime) -> Result<(), Fail> {
    let alloc = rt.alloc();
    fs::write(&rt, "small.txt", "abc")?;
    fs::write(&rt, "large.bin", vec![in alloc; 7u8; 20_000]?)?;
    fs::create_dir(&rt, "folder")?;
    let mut shelf = HostShelf::new(rt, alloc);
    let mut into = Vec::from_slice(alloc, b"<")?;
    let cases: [(&str, usize, Result<(), LoadFail>, &[u8]); 6] = [
        ("small.txt", 3, Ok(()), b"<abc"),
        ("small.txt", 2, Err(LoadFail::TooLong), b"<abc"),
        ("none.txt", 9, Err(LoadFail::Fault), b"<abc"),
        ("folder", 9, Err(LoadFail::Fault), b"<abc"),
        ("large.bin", 19_999, Err(LoadFail::TooLong), b"<abc"),
        ("small.txt", usize::MAX, Ok(()), b"<abcabc"),
    ];
    for (name, limit, answer, bytes) in cases {
        load_and_compare(&rt, &mut shelf, &mut into, (name, limit), (answer, bytes));
    }
    let mut large = Vec::new(alloc);
    assert_eq!(rt; shelf.load("large.bin", 20_000, &mut large), Ok(()));
    assert_eq!(rt; large.len(), 20_000);
    assert!(rt; large.iter().all(|byte| *byte == 7));
    Ok(())
}

#[test]
fn puts_into_memory(rt: HostRuntime) -> Result<(), Fail> {
    let alloc = rt.alloc();
    let fails = vec![in alloc;
        PutFail { call: 2, taken: 3 },
        PutFail { call: 2, taken: 0 },
        PutFail { call: 4, taken: 99 },
    ]?;
    let mut sink = MemSink::new(alloc, 10, fails)?;
    let cases: [(&[u8], Result<(), SinkFault>, &[u8]); 7] = [
        (b"ab", Ok(()), b"ab"),
        (b"", Ok(()), b"ab"),
        (b"cdefg", Err(SinkFault), b"abcde"),
        (b"fg", Ok(()), b"abcdefg"),
        (b"hi", Err(SinkFault), b"abcdefghi"),
        (b"jkl", Err(SinkFault), b"abcdefghij"),
        (b"m", Err(SinkFault), b"abcdefghij"),
    ];
    for (piece, answer, bytes) in cases {
        assert_eq!(rt; sink.put(piece), answer);
        assert_eq!(rt; sink.bytes(), bytes);
    }
    Ok(())
}

/// Puts a text in two pieces.
fn put_both<K: Sink>(sink: &mut K, first: &[u8], second: &[u8]) -> Result<(), SinkFault>
    ensures taken { OnOk result (AreTaken (first.now ∷ second.now ∷ []) (K.seen sink.old) (K.seen sink.new)) }
    ensures cut_off { OnErr result (AreCutOff (first.now ∷ second.now ∷ []) (K.seen sink.old) (K.seen sink.new)) }
{
    sink.put(first)?;
    sink.put(second)
}

#[test]
fn puts_a_text_in_pieces(rt: HostRuntime) -> Result<(), Fail> {
    let mut sink = MemSink::new(rt.alloc(), 1000, Vec::new(rt.alloc()))?;
    assert_eq!(rt; put_both(&mut sink, b"a", b"b"), Ok(()));
    assert_eq!(rt; sink.bytes(), b"ab".as_slice());
    let mut out = HostSink::output(rt.stdout());
    assert_eq!(rt; put_both(&mut out, b"a", b"b\n"), Ok(()));
    assert_eq!(rt; out.finish(), Ok(()));
    let mut err = HostSink::error(rt.stderr());
    assert_eq!(rt; put_both(&mut err, b"", b"c\n"), Ok(()));
    assert_eq!(rt; err.finish(), Ok(()));
    Ok(())
}
