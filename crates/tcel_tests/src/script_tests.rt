ghost use Rattle.std.specs.Prelude.{◌≡◌, ◌≤◌, [], ◌∷◌, length, map, IfOk};
ghost use Rattle.tcel_num.specs.PortRow.{HaveDistinctNames};

use sqlite_items::Items;
use std::alloc::Global;
use std::test::Fail;
use tcel_num::{Name, NoMemory, PortRow};
use tcel_script::ScriptFail::{self, BadLine, NoPort, Number, PortTwice};
use tcel_script::read_script;

// One task `t` with the input `s`.
fn ports(alloc: Global) -> Result<Vec<PortRow>, NoMemory>
    ensures distinct { IfOk result (λ ports. HaveDistinctNames ports.items) }
    ensures one { IfOk result (λ ports. length ports.items ≡ 1) }
    ensures input { IfOk result (λ ports. map (λ row. length row.inputs) ports.items ≡ 1 ∷ []) }
{
    let (Some(task), Some(input)) = (Name::new(b"t"), Name::new(b"s")) else {
        return Err(NoMemory);
    };
    let inputs = Items::from_vec(vec![in alloc; input]?);
    Ok(vec![in alloc; PortRow { task, inputs }]?)
}

fn stream(alloc: Global, text: &[u8]) -> Result<Vec<i64>, ScriptFail>
    requires { length text.now ≤ 16777216 }
{
    let ports = ports(alloc)?;
    let script = read_script(alloc, text, &ports)?;
    let mut lists = script.lists(alloc, 0)?;
    Ok(lists.pop().unwrap_or(Vec::new(alloc)))
}

#[test]
fn scripts_give_their_values(rt: HostRuntime) -> Result<(), Fail> {
    let cases: [(&[u8], &[i64]); 9] = [
        (
            b"t s -9223372036854775808 9223372036854775807\n",
            &[i64::MIN, i64::MAX],
        ),
        (b"t\ts 5\r\n", &[5]),
        (b"t s 5", &[5]),
        (b"t s\n", &[]),
        (b"", &[]),
        (b"#\n\r\n\n \t\nt s 1 \t 2 \n", &[1, 2]),
        (b"# \xff\xfe\0\n  t s -0 0000000000000000001", &[0, 1]),
        (b"t s 5\n#\r", &[5]),
        (b"t s 5\n\n#t s 6\n", &[5]),
    ];
    for (text, wanted) in cases {
        assert!(rt; text.len() <= 16_777_216);
        let values = stream(rt.alloc(), text)?;
        assert_eq!(rt; values.as_slice(), wanted);
    }
    Ok(())
}

#[test]
fn the_first_faulty_line_is_named(rt: HostRuntime) {
    let cases: [(&[u8], ScriptFail); 19] = [
        (b"t", BadLine { line: 1 }),
        (b"# x\n\nt\n", BadLine { line: 3 }),
        (b"\r", BadLine { line: 1 }),
        (b"\r\r\n", BadLine { line: 1 }),
        (b"t q 1", NoPort { line: 1 }),
        (b"t o 1", NoPort { line: 1 }),
        (b"T s 1", NoPort { line: 1 }),
        (b" # x", NoPort { line: 1 }),
        (b"\xff \xfe 1", NoPort { line: 1 }),
        (b"t s\0 1", NoPort { line: 1 }),
        (b"t s 1\nt s 1\n", PortTwice { line: 2 }),
        (b"t s 1\nt s\n", PortTwice { line: 2 }),
        (b"t s 1\nt s x\n", PortTwice { line: 2 }),
        (b"t s 9223372036854775808", Number { line: 1 }),
        (b"t s -9223372036854775809", Number { line: 1 }),
        (b"t s -", Number { line: 1 }),
        (b"t s 00000000000000000001", Number { line: 1 }),
        (b"t s 1 +5\nt\n", Number { line: 1 }),
        (b"t s 5\r", Number { line: 1 }),
    ];
    for (text, wanted) in cases {
        assert!(rt; text.len() <= 16_777_216);
        match stream(rt.alloc(), text) {
            Ok(_) => assert!(rt; false, "{text:?}"),
            Err(fail) => assert_eq!(rt; fail, wanted, "{text:?}"),
        }
    }
}

#[test]
fn a_value_past_the_end_is_zero(rt: HostRuntime) -> Result<(), Fail> {
    let ports = ports(rt.alloc())?;
    let script = read_script(rt.alloc(), b"t s 7 8", &ports)?;
    let values = [
        script.value(0, 0, 0),
        script.value(0, 0, 1),
        script.value(0, 0, 2),
    ];
    assert_eq!(rt; values, [7, 8, 0]);
    assert_eq!(rt;
        [
            script.value(0, 1, 0),
            script.value(1, 0, 0),
            script.value(0, 0, u64::MAX)
        ],
        [0, 0, 0]
    );
    Ok(())
}

#[test]
fn a_stream_is_set(rt: HostRuntime) -> Result<(), Fail> {
    let ports = ports(rt.alloc())?;
    let mut script = read_script(rt.alloc(), b"t s 7 8 9", &ports)?;
    script.set(0, 0, &[-1, 2])?;
    let values = [
        script.value(0, 0, 0),
        script.value(0, 0, 1),
        script.value(0, 0, 2),
    ];
    assert_eq!(rt; values, [-1, 2, 0]);
    Ok(())
}
