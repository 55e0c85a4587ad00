ghost use Rattle.std.specs.Prelude.{◌≡◌, IfOk, IfSome, OnOk, option_map};
ghost use Rattle.tcel_core.specs.Plain as core;
ghost use Rattle.tcel_check.specs.Checked.{behind_block, behind_stmt, core_block, core_stmt, time_of};
ghost use Rattle.tcel_check.specs.Keys.{next_in, numbered_in};
ghost use Rattle.tcel_check.specs.Rows.{whole};
ghost use Rattle.tcel_core.specs.Limits.{IsCount, IsTime};
ghost use Rattle.tcel_check.specs.Rooms.{BlockFits, StmtFits};
ghost use Rattle.tcel_tree.specs.Plain.{plain_block, plain_stmt};

use crate::core_exprs::core_expr;
use crate::next::Next;
use crate::numbers::TaskNumbers;
use sqlite_items::Items;
use std::alloc::Global;
use tcel_core::{Body, CoreStmt, Item};
use tcel_num::NoMemory;
use tcel_tree::{Placed, Stmt, StmtKind};

/// Statements with their names and themselves numbered.
#[cycle(blocks)]
pub fn core_block(
    alloc: Global,
    names: &TaskNumbers,
    stmts: &[Stmt],
    next: &mut Next,
) -> Result<Body, NoMemory>
    requires { BlockFits (next_in next.old) (core_block (plain_block stmts.now) (numbered_in names.now) (next_in next.old)) }
    ensures body { IfOk result (λ b. core.plain_body b ≡ core_block (plain_block stmts.now) (numbered_in names.now) (next_in next.old)) }
    ensures next { OnOk result (next_in next.new ≡ behind_block (plain_block stmts.now) (next_in next.old)) }
{
    let mut list = Items::new(alloc);
    for stmt in stmts {
        list.push(core_stmt(alloc, names, stmt, next)?)?;
    }
    Ok(Body { list })
}

#[cycle(blocks)]
fn core_stmt(
    alloc: Global,
    names: &TaskNumbers,
    stmt: &Stmt,
    next: &mut Next,
) -> Result<CoreStmt, NoMemory>
    requires { StmtFits (next_in next.old) (core_stmt (plain_stmt stmt.now) (numbered_in names.now) (next_in next.old)) }
    ensures stmt { IfOk result (λ s. core.plain_stmt s ≡ core_stmt (plain_stmt stmt.now) (numbered_in names.now) (next_in next.old)) }
    ensures next { OnOk result (next_in next.new ≡ behind_stmt (plain_stmt stmt.now) (next_in next.old)) }
{
    match &stmt.what {
        StmtKind::Assign { name, value } => {
            let item = Item::Assign(names.vars.number(name), core_expr(alloc, names, value)?);
            Ok(CoreStmt::Item {
                id: next.item(),
                item,
            })
        }
        StmtKind::AssignAt { name, index, value } => {
            let index = core_expr(alloc, names, index)?;
            let value = core_expr(alloc, names, value)?;
            let item = Item::AssignAt(names.vars.number(name), index, value);
            Ok(CoreStmt::Item {
                id: next.item(),
                item,
            })
        }
        StmtKind::Receive { name, port, .. } => {
            let item = Item::Receive(names.vars.number(name), names.inputs.number(port));
            Ok(CoreStmt::Item {
                id: next.item(),
                item,
            })
        }
        StmtKind::Send { value, port, .. } => {
            let item = Item::Send(core_expr(alloc, names, value)?, names.outputs.number(port));
            Ok(CoreStmt::Item {
                id: next.item(),
                item,
            })
        }
        StmtKind::If { test, yes, no } => {
            let test = core_expr(alloc, names, test)?;
            let id = next.test();
            let yes = core_block(alloc, names, yes.as_slice(), next)?;
            match no {
                None => {
                    let no = Body {
                        list: Items::new(alloc),
                    };
                    Ok(CoreStmt::If { id, test, yes, no })
                }
                Some(block) => {
                    let no = core_block(alloc, names, block.as_slice(), next)?;
                    Ok(CoreStmt::If { id, test, yes, no })
                }
            }
        }
        StmtKind::For {
            name,
            turns,
            body,
            ..
        } => {
            let body = core_block(alloc, names, body.as_slice(), &mut Next::InLoop)?;
            let item = Item::For(names.vars.number(name), turns_of(turns), body);
            Ok(CoreStmt::Item {
                id: next.item(),
                item,
            })
        }
        StmtKind::While { test, turns, body } => {
            let test = core_expr(alloc, names, test)?;
            let body = core_block(alloc, names, body.as_slice(), &mut Next::InLoop)?;
            let item = Item::While(test, turns_of(turns), body);
            Ok(CoreStmt::Item {
                id: next.item(),
                item,
            })
        }
        StmtKind::Do { window, body } => {
            let id = next.window();
            let body = core_block(alloc, names, body.as_slice(), next)?;
            Ok(CoreStmt::Do {
                id,
                after: time_of(window.after),
                before: time_of(window.before),
                within: time_of(window.within),
                body,
            })
        }
    }
}

/// Turns of a loop, 1 to 4,096.
fn turns_of(turns: &Placed) -> u32
    requires { IsCount (whole turns.now.value) }
    ensures { result ≡ whole turns.now.value }
{
    turns.value as u32
}

/// A time, where it was written.
fn time_of(time: Option<Placed>) -> Option<u64>
    requires { IfSome (option_map time_of time) IsTime }
    ensures { result ≡ option_map time_of time }
{
    match time {
        None => None,
        Some(time) => Some(time.value as u64),
    }
}
