use sqlite_items::{Boxed, Items};
use std::alloc::Global;
use std::test::Fail;
use tcel_num::{At, Name, NoMemory, Op};
use tcel_tree::{
    Decl, DeclKind, Expr, ExprKind, Placed, Program, Stmt, StmtKind, Task, Window, copy,
};

fn name(bytes: &[u8]) -> Result<Name, NoMemory> {
    Name::new(bytes).ok_or(NoMemory)
}

fn at(column: u32) -> At {
    At { line: 1, column }
}

fn placed(value: i64) -> Placed {
    Placed { value, at: at(7) }
}

fn number(value: i64) -> Expr {
    Expr {
        at: at(1),
        what: ExprKind::Number(value),
    }
}

// not a[1] or true
fn test(alloc: Global) -> Result<Expr, NoMemory> {
    let element = Expr {
        at: at(2),
        what: ExprKind::Index(name(b"a")?, Boxed::new(alloc, number(1))?),
    };
    let left = Expr {
        at: at(3),
        what: ExprKind::Unary(Op::Not, Boxed::new(alloc, element)?),
    };
    let right = Expr {
        at: at(4),
        what: ExprKind::Truth(true),
    };
    let what = ExprKind::Binary(Op::Or, Boxed::new(alloc, left)?, Boxed::new(alloc, right)?);
    Ok(Expr { at: at(5), what })
}

fn block(alloc: Global, what: StmtKind) -> Result<Items<Stmt>, NoMemory> {
    let mut list = Items::new(alloc);
    list.push(Stmt { at: at(6), what })?;
    Ok(list)
}

// for x < 3 { receive x from p; }
fn counted(alloc: Global) -> Result<StmtKind, NoMemory> {
    let (x, port) = (name(b"x")?, name(b"p")?);
    let received = StmtKind::Receive {
        name: x,
        name_at: at(8),
        port,
        port_at: at(9),
    };
    Ok(StmtKind::For {
        name: x,
        name_at: at(11),
        turns: placed(3),
        body: block(alloc, received)?,
    })
}

// do start after 5 finish within 6 { while not a[1] or true limit 4 { send 2 to p; } }
fn timed(alloc: Global) -> Result<StmtKind, NoMemory> {
    let sent = StmtKind::Send {
        value: number(2),
        port: name(b"p")?,
        port_at: at(10),
    };
    let body = block(alloc, sent)?;
    let repeated = StmtKind::While {
        test: test(alloc)?,
        turns: placed(4),
        body,
    };
    let window = Window {
        after: Some(placed(5)),
        before: None,
        within: Some(placed(6)),
    };
    Ok(StmtKind::Do {
        window,
        body: block(alloc, repeated)?,
    })
}

// if 9 { the timed block } else { the counted loop }
fn chosen(alloc: Global) -> Result<StmtKind, NoMemory> {
    let held = timed(alloc)?;
    let other = counted(alloc)?;
    Ok(StmtKind::If {
        test: number(9),
        yes: block(alloc, held)?,
        no: Some(block(alloc, other)?),
    })
}

fn body(alloc: Global) -> Result<Items<Stmt>, NoMemory> {
    let x = name(b"x")?;
    let mut list = block(alloc, chosen(alloc)?)?;
    let set = StmtKind::AssignAt {
        name: x,
        index: number(7),
        value: number(8),
    };
    list.append(block(alloc, set)?)?;
    let value = number(10);
    list.append(block(alloc, StmtKind::Assign { name: x, value })?)?;
    Ok(list)
}

fn decls(alloc: Global) -> Result<Items<Decl>, NoMemory> {
    let first = Some(-1);
    let length = placed(4);
    let kinds = [
        DeclKind::Input,
        DeclKind::Int { state: true, first },
        DeclKind::Array {
            state: false,
            length,
        },
    ];
    let mut decls = Items::new(alloc);
    for kind in kinds {
        let name = name(b"d")?;
        decls.push(Decl {
            kind,
            name,
            at: at(12),
        })?;
    }
    Ok(decls)
}

fn program(alloc: Global) -> Result<Program, NoMemory> {
    let task = Task {
        name: name(b"t")?,
        at: at(13),
        priority: placed(1),
        decls: decls(alloc)?,
        period: placed(10),
        finish: Some(placed(9)),
        body: body(alloc)?,
    };
    let mut tasks = Items::new(alloc);
    tasks.push(task)?;
    Ok(Program { tasks })
}

#[test]
fn a_copy_prints_as_its_program(rt: HostRuntime) -> Result<(), Fail> {
    let alloc = rt.alloc();
    let program = program(alloc)?;
    let copied = copy(alloc, &program)?;
    let text = format!(in alloc; "{program:?}")?;
    assert!(rt; text.len() > 1000);
    assert_eq!(rt; format!(in alloc; "{copied:?}")?.as_str(), text.as_str());
    Ok(())
}
