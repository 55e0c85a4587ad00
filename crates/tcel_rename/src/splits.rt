ghost use Rattle.std.specs.Prelude.{◌≡◌, ◌<◌, ◌||◌, ◌==◌, ◌&&◌, false, true, ℕ, Bool, List, length, slice_index_or};
ghost use Rattle.std.specs.List.{list_any};
ghost use Rattle.tcel_core.specs.Kinds.{is_live};
ghost use Rattle.tcel_core.specs.Language.{Block};
ghost use Rattle.tcel_core.specs.Parts.{variables};
ghost use Rattle.tcel_core.specs.Paths.{points, stmt_points};
ghost use Rattle.tcel_core.specs.Plain.{plain_body, plain_stmt};
ghost use Rattle.tcel_core.specs.declared.var.Var.{Var};
ghost use Rattle.tcel_core.specs.Rows.{stands_in};
ghost use Rattle.tcel_rename.specs.Lives.{stands_at};
ghost use Rattle.tcel_rename.specs.Sets.{by_list};
ghost use Rattle.tcel_rename.specs.Splits.{AreLive, FindsSides};

use sqlite_items::Items;
use tcel_core::{Body, CoreStmt, ItemSet, Row};

/// Whether something of statements stands in the first part, and whether something is left for the rest.
#[derive(Clone, Copy, Debug)]
pub(crate) struct Sides {
    pub(crate) inside: bool,
    pub(crate) left: bool,
}

/// Goes through a body, and marks the ifs that stand in both parts.
#[cycle(splits)]
pub(crate) fn split_body(
    kept: &ItemSet,
    lives: &[Row],
    body: &Body,
    splits: &mut Items<bool>,
) -> Sides
    ensures { (vars : List Var) (whole : Block) → AreLive (by_list vars whole kept.now.list) lives.now →
        FindsSides (by_list vars whole kept.now.list) (points (plain_body body.now)) splits.old result splits.new }
{
    let stmts = body.list.as_slice();
    let mut left = stmts.len();
    let mut sides = Sides {
        inside: false,
        left: false,
    };
    while left > 0 {
        left -= 1;
        let here = split_stmt(kept, lives, &stmts[left], splits);
        sides = both(here, sides);
    }
    sides
}

#[cycle(splits)]
fn split_stmt(kept: &ItemSet, lives: &[Row], stmt: &CoreStmt, splits: &mut Items<bool>) -> Sides
    ensures { (vars : List Var) (whole : Block) → AreLive (by_list vars whole kept.now.list) lives.now →
        FindsSides (by_list vars whole kept.now.list) (stmt_points (plain_stmt stmt.now)) splits.old result splits.new }
{
    match stmt {
        CoreStmt::Item { id, .. } => {
            let held = kept.has(*id);
            Sides {
                inside: held,
                left: !held | is_live(lives, *id),
            }
        }
        CoreStmt::If { id, yes, no, .. } => {
            let second = split_body(kept, lives, no, splits);
            let first = split_body(kept, lives, yes, splits);
            let sides = both(first, second);
            mark(splits, *id, sides.inside & sides.left);
            sides
        }
        CoreStmt::Do { body, .. } => split_body(kept, lives, body, splits),
    }
}

/// What is so of one of two pieces.
fn both(a: Sides, b: Sides) -> Sides
    ensures inside { result.inside ≡ (a.inside || b.inside) }
    ensures left { result.left ≡ (a.left || b.left) }
{
    Sides {
        inside: a.inside | b.inside,
        left: a.left | b.left,
    }
}

/// Whether an item is live for a variable.
fn is_live(lives: &[Row], id: u32) -> bool
    ensures { (vars : List Var) (whole : Block) (list : List Bool) → AreLive (by_list vars whole list) lives.now →
        result ≡ list_any (is_live (by_list vars whole list) id) (variables (by_list vars whole list)) }
{
    let row = row_at(lives, id);
    row.meets(&row)
}

/// The row of that number, or the empty one past the end.
pub(crate) fn row_at(rows: &[Row], id: u32) -> Row
    ensures { (v : ℕ) → v < 256 → stands_in result v ≡ stands_at rows.now id v }
{
    let at = id as usize;
    if at < rows.len() {
        rows[at]
    } else {
        Row::empty()
    }
}

/// Marks the `if` of that number, where the list has it.
fn mark(splits: &mut Items<bool>, id: u32, split: bool)
    ensures long { length splits.new ≡ length splits.old }
    ensures marked { (n : ℕ) → n < length splits.old → slice_index_or splits.new n false ≡ (slice_index_or splits.old n false || ((id == n) && split)) }
{
    let at = id as usize;
    if split && at < splits.len() {
        splits.set(at, true);
    }
}
