use crate::program_tests::{accept, compare_call};
use std::process::Abort;
use std::test::Fail;

/// Each form of each rule of the grammar once, in any layout.
const FORMS: &str =
    "task a priority 2 { input i; output o;\n local int x; local int l[3]; local bool b; // locals\n \
    state int n; state int m = 7; state int k = - 2; state int c [ 4 ];\n \
    state bool f; state bool g = true; state bool h = false;\n every 100 finish within 90 {\n \
    x:=1; l[0]:=x; receive x from i; send x to o;\n if b { x := 2; }\n if not b { } else { x := - x; }\n \
    for x<3 { l[x] := c[x]; }\n while x<3 or f and g limit 5 { x:=x+1; }\n do { }\n do start after 1 { }\n \
    do start before 2 { }\n do finish within 3 { }\n do start after 1 start before 2 { }\n \
    do start after 1 finish within 3 { }\n do start before 2 finish within 3 { }\n \
    do start after 1 start before 2 finish within 3 { send (x+1)*2 to o; }\n \
    b := x==1; b := x!=1; b := x<1; b := x<=1; b := x>1; b := x>=1;\n b := true; b := false; x := (x-1*2/3%4);\n \
    if b { } else { }\n } }\ntask z priority 1 { every 7 { } } // the end";

const FORMS_CANONICAL: &str =
    "task a priority 2 {\n  input i;\n  output o;\n  local int x;\n  local int l[3];\n  local bool b;\n  \
    state int n;\n  state int m = 7;\n  state int k = -2;\n  state int c[4];\n  state bool f;\n  \
    state bool g = true;\n  state bool h = false;\n  every 100 finish within 90 {\n    x := 1;\n    l[0] := x;\n    \
    receive x from i;\n    send x to o;\n    if b {\n      x := 2;\n    }\n    if not b {\n    } else {\n      \
    x := -x;\n    }\n    for x < 3 {\n      l[x] := c[x];\n    }\n    while x < 3 or f and g limit 5 {\n      \
    x := x + 1;\n    }\n    do {\n    }\n    do start after 1 {\n    }\n    do start before 2 {\n    }\n    \
    do finish within 3 {\n    }\n    do start after 1 start before 2 {\n    }\n    \
    do start after 1 finish within 3 {\n    }\n    do start before 2 finish within 3 {\n    }\n    \
    do start after 1 start before 2 finish within 3 {\n      send (x + 1) * 2 to o;\n    }\n    b := x == 1;\n    \
    b := x != 1;\n    b := x < 1;\n    b := x <= 1;\n    b := x > 1;\n    b := x >= 1;\n    b := true;\n    \
    b := false;\n    x := x - 1 * 2 / 3 % 4;\n    if b {\n    } else {\n    }\n  }\n}\ntask z priority 1 {\n  \
    every 7 {\n  }\n}\n";

/// Compares what `format` writes.
fn compare(rt: &(impl Abort + AllocGlobal), text: &[u8], canonical: &[u8]) -> Result<(), Fail> {
    compare_call(rt, "format", text, 0, (canonical, b""))
}

#[test]
fn formats_statements(rt: HostRuntime) -> Result<(), Fail> {
    let rows = [
        ("x := ((1 - 2)) - 3;", "x := 1 - 2 - 3;"),
        ("x := 1 - (2 - 3);", "x := 1 - (2 - 3);"),
        ("x := -(-1);", "x := -(-1);"),
        ("send (1+2)*3 to o;", "send (1 + 2) * 3 to o;"),
        ("\tx\t:=\r\n01 // one\n;", "x := 1;"),
        ("x := (not a) and (b or c);", "x := not a and (b or c);"),
    ];
    for (statement, printed) in rows {
        let alloc = rt.alloc();
        let text = format!(in alloc;
            "task t priority 1 {{ output o; local int x; every 9 {{ {statement} }} }}"
        )?;
        let canonical = format!(in alloc;
            "task t priority 1 {{\n  output o;\n  local int x;\n  every 9 {{\n    {printed}\n  }}\n}}\n"
        )?;
        compare(&rt, text.as_bytes(), canonical.as_bytes())?;
    }
    Ok(())
}

#[test]
fn accepts_each_form(rt: HostRuntime) -> Result<(), Fail> {
    let canonical = FORMS_CANONICAL.as_bytes();
    accept(&rt, FORMS.as_bytes(), canonical)?;
    accept(&rt, canonical, canonical)
}
