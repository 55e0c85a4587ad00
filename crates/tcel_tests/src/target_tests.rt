use std::alloc::Global;
use std::test::Fail;
use tcel_target::{CostKey, Costs, TargetFail, read_target};

/// The lines of the target of unit costs.
const LINES: [&[u8]; 15] = [
    b"const = 1\n",
    b"load = 1\n",
    b"store = 1\n",
    b"load_at = 1\n",
    b"store_at = 1\n",
    b"arith = 1\n",
    b"multiply = 1\n",
    b"divide = 1\n",
    b"jump = 1\n",
    b"branch = 1\n",
    b"loop = 1\n",
    b"receive = 1\n",
    b"send = 1\n",
    b"mark = 1\n",
    b"end = 1\n",
];

/// The number of the place behind the lines.
const BEHIND: usize = 15;

/// The target of unit costs, with other bytes in place of the line of this number.
fn changed(alloc: Global, place: usize, by: &[u8]) -> Result<Vec<u8>, Fail> {
    let mut text = Vec::new(alloc);
    for (number, line) in LINES.iter().enumerate() {
        if number == place {
            text.extend_from_slice(by)?;
        } else {
            text.extend_from_slice(*line)?;
        }
    }
    if place == BEHIND {
        text.extend_from_slice(by)?;
    }
    Ok(text)
}

/// A word for the fault, with the key behind it.
fn told(alloc: Global, answer: &Result<Costs, TargetFail>) -> Result<Vec<u8>, Fail> {
    let (word, key): (&[u8], &[u8]) = match answer {
        Ok(_) => (b"accepted", b""),
        Err(TargetFail::NotToml) => (b"not toml", b""),
        Err(TargetFail::Strange { key }) => (b"strange ", key.bytes()),
        Err(TargetFail::Missing { key }) => (b"missing ", key.text().as_bytes()),
        Err(TargetFail::Range { key }) => (b"range ", key.text().as_bytes()),
        Err(TargetFail::NoMemory) => (b"no memory", b""),
    };
    let mut text = Vec::from_slice(alloc, word)?;
    text.extend_from_slice(key)?;
    Ok(text)
}

#[test]
fn refused(rt: HostRuntime) -> Result<(), Fail> {
    let rows: [(usize, &[u8], &[u8]); 22] = [
        (14, b"", b"missing end"),
        (0, b"", b"missing const"),
        (12, b"send = 0\n", b"range send"),
        (12, b"send = 1001\n", b"range send"),
        (12, b"send = -1\n", b"range send"),
        (BEHIND, b"dispatch = 1001\n", b"range dispatch"),
        (BEHIND, b"dispatch = -1\n", b"range dispatch"),
        (BEHIND, b"dispatch = \"1\"\n", b"range dispatch"),
        (BEHIND, b"fast = 1\n", b"strange fast"),
        // The least strange key by bytes comes before any other fault.
        (14, b"zeta = 1\nLoad = 1\n", b"strange Load"),
        (14, b"\"\" = 1\n\" \" = 2\n", b"strange "),
        (12, b"send = 0\nfast = 1\n", b"strange fast"),
        // The first key of the list, whether it is missing or out of range.
        (8, b"dispatch = 1001\n", b"missing jump"),
        (1, b"load = 0\ndispatch = 1001\n", b"range load"),
        (0, b"const =\n", b"not toml"),
        (0, b"const = 1\nconst = 1\n", b"not toml"),
        (0, b"const = 1\nload.at = 1\n", b"not toml"),
        (1, b"load.at = 1\n", b"range load"),
        (0, b"const = 1.0\n", b"range const"),
        (0, b"const = \"1\"\n", b"range const"),
        (BEHIND, b"[const]\n", b"not toml"),
        (0, b"const = 9223372036854775808\n", b"not toml"),
    ];
    for (place, by, wanted) in rows {
        let text = changed(rt.alloc(), place, by)?;
        let answer = read_target(rt.alloc(), &text);
        assert_eq!(rt; told(rt.alloc(), &answer)?.as_slice(), wanted);
    }
    Ok(())
}

#[test]
fn texts_without_a_cost(rt: HostRuntime) {
    let empty = TargetFail::Missing {
        key: CostKey::Const,
    };
    assert_eq!(rt; read_target(rt.alloc(), b""), Err(empty));
    assert_eq!(rt;
        read_target(rt.alloc(), b"# \xff"),
        Err(TargetFail::NotToml)
    );
}

#[test]
fn accepted(rt: HostRuntime) -> Result<(), Fail> {
    let rows: [(usize, &[u8]); 5] = [
        (BEHIND, b""),
        (BEHIND, b"dispatch = 0"),
        (0, b"  'const'\t=  1  # one\n"),
        (0, b"\n# a comment\r\n\r\nconst = 1\r\n"),
        (13, b"mark = 0x01\n"),
    ];
    for (place, by) in rows {
        let text = changed(rt.alloc(), place, by)?;
        assert_eq!(rt; read_target(rt.alloc(), &text), Ok(Costs::unit()));
    }
    Ok(())
}

#[test]
fn costs_of_a_target(rt: HostRuntime) -> Result<(), Fail> {
    let text = changed(rt.alloc(), 13, b"dispatch = 1_000\nmark = 999\n")?;
    let mut costs = Costs::unit();
    costs.set(CostKey::Mark, 999);
    costs.set(CostKey::Dispatch, 1000);
    assert_eq!(rt; read_target(rt.alloc(), &text), Ok(costs));
    assert_eq!(rt;
        (costs.of(CostKey::Mark), costs.of(CostKey::Dispatch)),
        (999, 1000)
    );
    Ok(())
}
