ghost use Rattle.std.specs.Prelude.{◌≡◌, ◌<◌, ◌&&◌, ◌||◌, ◌==◌, ℕ, List, length, not};
ghost use Rattle.tcel_core.specs.Language.{Block};
ghost use Rattle.tcel_core.specs.Paths.{points, stmt_points};
ghost use Rattle.tcel_core.specs.Plain.{plain_body, plain_expr, plain_item, plain_stmt};
ghost use Rattle.tcel_core.specs.Rows.{stands_in};
ghost use Rattle.tcel_core.specs.Uses.{act_reads, act_writes, expr_reads};
ghost use Rattle.tcel_core.specs.declared.var.Var.{Var};
ghost use Rattle.tcel_rename.specs.Lives.{FindsLiveByItem, FindsLiveInBlock, FindsLiveInStmt, stands_at};
ghost use Rattle.tcel_rename.specs.Sets.{by_list, holds_among};

use crate::kinds::common;
use sqlite_items::Items;
use tcel_core::{
    Body, CoreExpr, CoreStmt, Item, ItemSet, Row, add_expr_reads, add_reads, add_writes,
};

/// Goes from the end of a body to its start: leaves the variables that the rest wants there, and adds to each kept item's
/// row the variables of kind 3 for which it is live. Tells whether a kept item stands in the body.
#[cycle(live)]
pub(crate) fn live_in_body(
    kept: &ItemSet,
    third: &Row,
    body: &Body,
    wanted: &mut Row,
    lives: &mut Items<Row>,
) -> bool
    ensures holds { (vars : List Var) (whole : Block) → result ≡ holds_among (by_list vars whole kept.now.list) (points (plain_body body.now)) }
    ensures found { (vars : List Var) (whole : Block) →
        FindsLiveInBlock (by_list vars whole kept.now.list) third.now (plain_body body.now) wanted.old lives.old wanted.new lives.new }
{
    let stmts = body.list.as_slice();
    let mut left = stmts.len();
    let mut holds = false;
    while left > 0 {
        left -= 1;
        let here = live_in_stmt(kept, third, &stmts[left], wanted, lives);
        holds = here | holds;
    }
    holds
}

#[cycle(live)]
fn live_in_stmt(
    kept: &ItemSet,
    third: &Row,
    stmt: &CoreStmt,
    wanted: &mut Row,
    lives: &mut Items<Row>,
) -> bool
    ensures holds { (vars : List Var) (whole : Block) → result ≡ holds_among (by_list vars whole kept.now.list) (stmt_points (plain_stmt stmt.now)) }
    ensures found { (vars : List Var) (whole : Block) →
        FindsLiveInStmt (by_list vars whole kept.now.list) third.now (plain_stmt stmt.now) wanted.old lives.old wanted.new lives.new }
{
    match stmt {
        CoreStmt::Item { id, item } => {
            let held = kept.has(*id);
            live_in_item(held, *id, item, third, wanted, lives);
            held
        }
        CoreStmt::If {
            id: _,
            test,
            yes,
            no,
        } => {
            let behind = *wanted;
            let second = live_in_body(kept, third, no, wanted, lives);
            let of_second = *wanted;
            *wanted = behind;
            let first = live_in_body(kept, third, yes, wanted, lives);
            wanted.add(&of_second);
            let held = first | second;
            want_test(held, test, wanted);
            held
        }
        CoreStmt::Do { body, .. } => live_in_body(kept, third, body, wanted, lives),
    }
}

/// Adds what a test reads, of an `if` in which no kept item stands.
fn want_test(held: bool, test: &CoreExpr, wanted: &mut Row)
    ensures { (v : ℕ) → v < 256 → stands_in wanted.new v ≡ (stands_in wanted.old v || (not held && expr_reads (plain_expr test.now) v)) }
{
    if !held {
        add_expr_reads(test, wanted);
    }
}

/// What is wanted before an item, which is kept or not.
fn live_in_item(
    held: bool,
    id: u32,
    item: &Item,
    third: &Row,
    wanted: &mut Row,
    lives: &mut Items<Row>,
)
    ensures { FindsLiveByItem held id (act_reads (plain_item item.now)) (act_writes (plain_item item.now)) third.now wanted.old lives.old wanted.new lives.new }
{
    let mut writes = Row::empty();
    add_writes(item, &mut writes);
    if held {
        let wanted_here = common(&writes, wanted);
        let live = common(third, &wanted_here);
        add_at(lives, id, &live);
        wanted.remove(&writes);
    } else {
        wanted.remove(&writes);
        add_reads(item, wanted);
    }
}

/// Adds variables to the row of that number, where there is one.
fn add_at(rows: &mut Items<Row>, id: u32, more: &Row)
    ensures long { length rows.new ≡ length rows.old }
    ensures added { (n v : ℕ) → n < length rows.old → v < 256 → stands_at rows.new n v ≡ (stands_at rows.old n v || ((id == n) && stands_in more.now v)) }
{
    let at = id as usize;
    if at < rows.len() {
        let mut row = rows.as_slice()[at];
        row.add(more);
        rows.set(at, row);
    }
}
