use sqlite_items::Items;
use std::test::Fail;
use tcel_parse::parse;
use tcel_show::show;
use tcel_token::tokens;
use tcel_tree::Program;

#[test]
fn a_program_is_written_on_its_lines(rt: HostRuntime) -> Result<(), Fail> {
    let text: &[u8] =
        b"task t priority 1 { state int x=-9223372036854775807; // a comment\n every 1000000000 {\
        if(true){x:=(1)-((2-3));}else{}}}";
    let tokens = tokens(rt.alloc(), text)?;
    let program = parse(rt.alloc(), &tokens)?;
    let text = show(rt.alloc(), &program)?;
    let wanted =
        b"task t priority 1 {\n  state int x = -9223372036854775807;\n  every 1000000000 {\n    if true {\n      \
        x := 1 - (2 - 3);\n    } else {\n    }\n  }\n}\n";
    assert_eq!(rt; text.as_slice(), wanted.as_slice());
    Ok(())
}

#[test]
fn no_tasks_are_no_text(rt: HostRuntime) -> Result<(), Fail> {
    let tasks = Items::new(rt.alloc());
    let text = show(rt.alloc(), &Program { tasks })?;
    assert!(rt; text.is_empty());
    Ok(())
}
