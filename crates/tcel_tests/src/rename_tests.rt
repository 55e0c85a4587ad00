use crate::programs::{Row, own_parts, task_in, worked_task};
use sqlite_items::Items;
use std::alloc::Global;
use std::process::Abort;
use std::test::Fail;
use tcel_core::{Body, CoreExpr, CoreStmt, Item, VarKind};

const HEAD: &[u8] = b"task t priority 1 { input s; output o; state int n; local int x; ";

// A statement's letter and two of its numbers.
fn seen(stmt: &CoreStmt) -> (u8, u32, u32) {
    match stmt {
        CoreStmt::Item { id, item } => match item {
            Item::Receive(var, _) => (b'r', *id, *var),
            Item::Assign(var, _) => (b'a', *id, *var),
            Item::Send(CoreExpr::Var(var), _) => (b's', *id, *var),
            Item::Copy(from, to) => (b'c', *from, *to),
            Item::For(var, _, _) => (b'f', *id, *var),
            _ => (b'o', *id, 0),
        },
        CoreStmt::If { id, test, .. } => match test {
            CoreExpr::Var(var) => (b'i', *id, *var),
            _ => (b'i', *id, 99),
        },
        CoreStmt::Do { id, .. } => (b'd', *id, 0),
    }
}

fn add_seen(body: &Body, all: &mut Items<(u8, u32, u32)>) -> Result<(), Fail> {
    for stmt in body.list.as_slice() {
        all.push(seen(stmt))?;
    }
    Ok(())
}

// The statements of a list, those of branches and loops behind them.
fn shown(alloc: Global, body: &Body) -> Result<Items<(u8, u32, u32)>, Fail> {
    let mut all = Items::new(alloc);
    for stmt in body.list.as_slice() {
        all.push(seen(stmt))?;
        match stmt {
            CoreStmt::If { yes, no, .. } => {
                add_seen(yes, &mut all)?;
                add_seen(no, &mut all)?;
            }
            CoreStmt::Item {
                item: Item::For(_, _, inner),
                ..
            } => add_seen(inner, &mut all)?,
            _ => {}
        }
    }
    Ok(all)
}

// Compares the statements of a part.
fn compare(
    rt: &(impl Abort + AllocGlobal),
    part: &Body,
    wanted: &[(u8, u32, u32)],
) -> Result<(), Fail> {
    let found = shown(rt.alloc(), part)?;
    assert_eq!(rt; found.as_slice(), wanted);
    Ok(())
}

#[test]
fn the_worked_task(rt: HostRuntime) -> Result<(), Fail> {
    let task = worked_task(rt.alloc())?;
    let cut = own_parts(rt.alloc(), &task)?;
    assert_eq!(rt; (cut.words, cut.vars.len()), (6, 6));
    assert_eq!(rt; cut.vars.as_slice()[3].kind, VarKind::Int);
    assert_eq!(rt; cut.vars.as_slice()[5].kind, VarKind::Bool);
    let first = [
        (b'r', 0, 2),
        (b'a', 0, 5),
        (b'i', 0, 5),
        (b'a', 1, 3),
        (b's', 2, 3),
        (b'a', 5, 3),
        (b'c', 3, 4),
        (b's', 6, 3),
    ];
    compare(&rt, &cut.first, &first)?;
    let rest = [(b'i', 0, 5), (b'a', 3, 1), (b'a', 4, 0), (b'c', 4, 1)];
    compare(&rt, &cut.rest, &rest)
}

// The rest reads x before the first part changes it.
#[test]
fn a_saved_value(rt: HostRuntime) -> Result<(), Fail> {
    let step: Row<'_> = (
        b"every 30",
        b"receive x from s; n := n + x; x := x + 1; send x to o;",
    );
    let task = task_in(rt.alloc(), HEAD, step)?;
    let cut = own_parts(rt.alloc(), &task)?;
    assert_eq!(rt; cut.words, 4);
    let first = [(b'r', 0, 2), (b'c', 2, 3), (b'a', 2, 2), (b's', 3, 2)];
    compare(&rt, &cut.first, &first)?;
    compare(&rt, &cut.rest, &[(b'c', 3, 1), (b'a', 1, 0)])
}

#[test]
fn a_loop_is_kept_whole(rt: HostRuntime) -> Result<(), Fail> {
    let looped: Row<'_> = (b"every 30", b"for x < 2 { send x to o; n := n + 1; }");
    let task = task_in(rt.alloc(), HEAD, looped)?;
    let cut = own_parts(rt.alloc(), &task)?;
    assert_eq!(rt; (cut.words, cut.vars.len()), (3, 2));
    compare(&rt, &cut.first, &[(b'f', 0, 1), (b's', 0, 1), (b'a', 0, 0)])?;
    compare(&rt, &cut.rest, &[])
}
