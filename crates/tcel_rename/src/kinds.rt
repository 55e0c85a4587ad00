ghost use Rattle.std.specs.Prelude.{◌≡◌, ◌<◌, ◌&&◌, ℕ, List};
ghost use Rattle.tcel_core.specs.Language.{Block, item};
ghost use Rattle.tcel_core.specs.Paths.{points, stmt_points};
ghost use Rattle.tcel_core.specs.Plain.{plain_body, plain_expr, plain_item, plain_stmt};
ghost use Rattle.tcel_core.specs.Rows.{stands_in};
ghost use Rattle.tcel_core.specs.Uses.{act_reads, act_writes, expr_reads};
ghost use Rattle.tcel_core.specs.declared.var.Var.{Var};
ghost use Rattle.tcel_rename.specs.Sets.{FindsByItem, FindsByTest, FindsInBlock, FindsInStmt, by_list, holds_among};

use tcel_core::{
    Body, CoreExpr, CoreStmt, Item, ItemSet, Row, add_expr_reads, add_reads, add_writes,
};

/// What is found of the variables behind a place: which of them the first part reads before it writes them, which are
/// written outside the kept set, which by kept items, and which of these in the text behind a read outside the kept set.
#[derive(Clone, Copy, Debug)]
pub(crate) struct Found {
    pub(crate) fetched: Row,
    pub(crate) outside: Row,
    pub(crate) inside: Row,
    pub(crate) late: Row,
}

/// Goes from the end of a body to its start, and tells whether a kept item stands in it.
#[cycle(kinds)]
pub(crate) fn find_in_body(kept: &ItemSet, body: &Body, found: &mut Found) -> bool
    ensures holds { (vars : List Var) (whole : Block) → result ≡ holds_among (by_list vars whole kept.now.list) (points (plain_body body.now)) }
    ensures found { (vars : List Var) (whole : Block) → FindsInBlock (by_list vars whole kept.now.list) (plain_body body.now) found.old found.new }
{
    let stmts = body.list.as_slice();
    let mut left = stmts.len();
    let mut holds = false;
    while left > 0 {
        left -= 1;
        let here = find_in_stmt(kept, &stmts[left], found);
        holds = here | holds;
    }
    holds
}

#[cycle(kinds)]
fn find_in_stmt(kept: &ItemSet, stmt: &CoreStmt, found: &mut Found) -> bool
    ensures holds { (vars : List Var) (whole : Block) → result ≡ holds_among (by_list vars whole kept.now.list) (stmt_points (plain_stmt stmt.now)) }
    ensures found { (vars : List Var) (whole : Block) → FindsInStmt (by_list vars whole kept.now.list) (plain_stmt stmt.now) found.old found.new }
{
    match stmt {
        CoreStmt::Item { id, item } => {
            let held = kept.has(*id);
            find_in_item(held, item, found);
            held
        }
        CoreStmt::If {
            id: _,
            test,
            yes,
            no,
        } => {
            let behind = found.fetched;
            let second = find_in_body(kept, no, found);
            let of_second = found.fetched;
            found.fetched = behind;
            let first = find_in_body(kept, yes, found);
            found.fetched.add(&of_second);
            let held = first | second;
            find_in_test(held, test, found);
            held
        }
        CoreStmt::Do { body, .. } => find_in_body(kept, body, found),
    }
}

/// What is found before an item, which is kept or not.
fn find_in_item(held: bool, item: &Item, found: &mut Found)
    ensures { FindsByItem held (act_reads (plain_item item.now)) (act_writes (plain_item item.now)) found.old found.new }
{
    let (mut reads, mut writes) = (Row::empty(), Row::empty());
    add_reads(item, &mut reads);
    add_writes(item, &mut writes);
    if held {
        found.fetched.remove(&writes);
        found.fetched.add(&reads);
        found.inside.add(&writes);
    } else {
        let late = common(&reads, &found.inside);
        found.late.add(&late);
        found.outside.add(&writes);
    }
}

/// What is found before the test of an `if`, in which a kept item stands or not.
fn find_in_test(held: bool, test: &CoreExpr, found: &mut Found)
    ensures { FindsByTest held (expr_reads (plain_expr test.now)) found.old found.new }
{
    let mut reads = Row::empty();
    add_expr_reads(test, &mut reads);
    if held {
        found.fetched.add(&reads);
    } else {
        let late = common(&reads, &found.inside);
        found.late.add(&late);
    }
}

/// The variables of both sets.
pub(crate) fn common(a: &Row, b: &Row) -> Row
    ensures { (v : ℕ) → v < 256 → stands_in result v ≡ (stands_in a.now v && stands_in b.now v) }
{
    let mut only = *a;
    only.remove(b);
    let mut both = *a;
    both.remove(&only);
    both
}
