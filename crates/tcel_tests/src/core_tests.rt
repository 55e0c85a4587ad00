ghost use Rattle.std.specs.Prelude.{◌≡◌, IfOk, None};
ghost use Rattle.tcel_core.specs.declared.var.VarKind.{VarKind};
ghost use Rattle.tcel_core.specs.Cells.{all_words};

use crate::programs::{Row, set_in, task_in};
use sqlite_items::{Boxed, Items};
use std::alloc::Global;
use std::test::Fail;
use tcel_core::{
    Body, Cells, CoreExpr, CoreStmt, CoreTask, Event, EventKind, Inputs, Item, ItemSet, Keep,
    Row as VarRow, Var, VarKind, add_reads, add_writes, frame, has_event, reads, writes,
};
use tcel_num::{Name, NoMemory};

const HEAD: &[u8] = b"task t priority 1 { input s; output o; state int n; local int x; ";

// It starts to send before 15.
const ALARM: Row<'static> = (
    b"every 20",
    b"receive x from s; do start before 15 { if x > 0 { n := n + 1; } else { send n to o; } send 5 to o; }",
);

fn event(kind: EventKind, value: i64, latest: u64) -> Event {
    Event {
        port: 0,
        kind,
        value,
        earliest: 0,
        latest,
    }
}

#[test]
fn frames_show_events_in_their_windows(rt: HostRuntime) -> Result<(), Fail> {
    let alloc = rt.alloc();
    let task = task_in(alloc, HEAD, ALARM)?;
    let mut cells = Cells::start(alloc, &task)?;
    let mut inputs = Inputs::new(alloc, vec![in alloc; vec![in alloc; 9]?]?)?;
    inputs.set(0, &[1, 0])?;
    let mut events = Vec::new(alloc);
    frame(&task, &mut cells, &mut inputs, &mut events)?;
    frame(&task, &mut cells, &mut inputs, &mut events)?;
    let wanted = [
        event(EventKind::Receive, 1, 20),
        event(EventKind::Send, 5, 15),
        event(EventKind::Receive, 0, 20),
        event(EventKind::Send, 1, 15),
        event(EventKind::Send, 5, 20),
    ];
    assert_eq!(rt; events.as_slice(), wanted.as_slice());
    Ok(())
}

fn int(keep: Keep, first: i64) -> Var
    ensures { result ≡ record { name = None; kind = VarKind.Int; keep = keep; first = first } }
{
    Var {
        name: None,
        kind: VarKind::Int,
        keep,
        first,
    }
}

// A task that does nothing, with a state that begins with 7 and a local.
fn idle_task(alloc: Global) -> Result<CoreTask, NoMemory>
    ensures { IfOk result (λ task. all_words task.vars ≡ 2) }
{
    let vars = [int(Keep::State, 7), int(Keep::Local, 0)];
    let name = Name::new(b"t").ok_or(NoMemory)?;
    Ok(CoreTask {
        name,
        priority: 1,
        period: 20,
        finish: 20,
        vars: Items::from_slice(alloc, &vars)?,
        inputs: Items::new(alloc),
        outputs: Items::new(alloc),
        body: Body {
            list: Items::new(alloc),
        },
    })
}

#[test]
fn cells_begin_with_the_declared_words(rt: HostRuntime) -> Result<(), Fail> {
    let task = idle_task(rt.alloc())?;
    let cells = Cells::start(rt.alloc(), &task)?;
    assert_eq!(rt; (cells.word(0), cells.word(1)), (7, 0));
    Ok(())
}

#[test]
fn ports_are_listed_by_task(rt: HostRuntime) -> Result<(), Fail> {
    let set = set_in(rt.alloc(), &[HEAD], &[ALARM])?;
    let rows = set.ports(rt.alloc())?;
    assert_eq!(rt; rows.len(), 1);
    assert_eq!(rt; rows[0].task.bytes(), b"t".as_slice());
    assert_eq!(rt; rows[0].inputs.len(), 1);
    assert_eq!(rt; rows[0].inputs.as_slice()[0].bytes(), b"s".as_slice());
    Ok(())
}

#[test]
fn inputs_are_made(rt: HostRuntime) -> Result<(), Fail> {
    let first = vec![in rt.alloc(); 5, 6]?;
    let second = vec![in rt.alloc()]?;
    let lists = vec![in rt.alloc(); first, second]?;
    let _inputs = Inputs::new(rt.alloc(), lists)?;
    Ok(())
}

#[test]
fn items_are_found(rt: HostRuntime) -> Result<(), Fail> {
    let list = Items::from_vec(vec![in rt.alloc(); false, true]?);
    let kept = ItemSet { list };
    assert!(rt; !kept.has(0));
    assert!(rt; kept.has(1));
    assert!(rt; !kept.has(2));
    Ok(())
}

#[test]
fn rows_hold_variables_up_to_255(rt: HostRuntime) {
    let mut row = VarRow::empty();
    for var in [0, 63, 64, 255, 256, 1000] {
        row.insert(var);
    }
    assert_eq!(rt;
        [0, 1, 63, 64, 65, 255, 256, 1000].map(|var| row.has(var)),
        [true, false, true, true, false, true, false, false]
    );
    assert_eq!(rt; row.bits, [1 | 1 << 63, 1, 0, 1 << 63]);
    let mut other = VarRow::empty();
    other.insert(64);
    assert!(rt; row.meets(&other));
    row.remove(&other);
    assert!(rt; !row.meets(&other) && !row.has(64) && row.has(63));
    row.add(&other);
    assert!(rt; row.has(64));
}

// for v1 < 5 { v3 := v7[v9]; }
fn fetching(alloc: Global) -> Result<Item, NoMemory> {
    let index = Boxed::new(alloc, CoreExpr::Var(9))?;
    let fetched = Item::Assign(3, CoreExpr::Index(7, index));
    let stmt = CoreStmt::Item {
        id: 0,
        item: fetched,
    };
    let list = Items::from_vec(vec![in alloc; stmt]?);
    Ok(Item::For(1, 5, Body { list }))
}

// The variables that an item reads, and those that it writes.
fn uses(alloc: Global, act: &Item) -> Result<(Vec<u32>, Vec<u32>), NoMemory> {
    let read = reads(alloc, act)?;
    let written = writes(alloc, act)?;
    Ok((read, written))
}

#[test]
fn a_loop_reads_what_it_writes(rt: HostRuntime) -> Result<(), Fail> {
    let turns = fetching(rt.alloc())?;
    let (read, written) = uses(rt.alloc(), &turns)?;
    assert_eq!(rt; read.as_slice(), [1, 3, 7, 9].as_slice());
    assert_eq!(rt; written.as_slice(), [1, 3].as_slice());
    Ok(())
}

#[test]
fn rows_are_filled_with_what_an_item_uses(rt: HostRuntime) -> Result<(), Fail> {
    let turns = fetching(rt.alloc())?;
    let (mut read, mut written) = (VarRow::empty(), VarRow::empty());
    add_reads(&turns, &mut read);
    add_writes(&turns, &mut written);
    assert_eq!(rt; read.bits[0], 1 << 1 | 1 << 3 | 1 << 7 | 1 << 9);
    assert_eq!(rt; written.bits[0], 1 << 1 | 1 << 3);
    assert!(rt; !has_event(&turns) && has_event(&Item::Receive(0, 0)));
    Ok(())
}
