ghost use Rattle.std.specs.Prelude.{◌≡◌, ◌+◌, ◌++◌, ◌≤◌, ◌||◌, ◌&&◌, List, Bool, [], ◌∷◌, IfOk, OnOk, false, length, slice_index_or, if◌then◌else◌};
ghost use Rattle.tcel_core.specs.Language.{Block, assign, choice, done, item, next, timed, variable};
ghost use Rattle.tcel_core.specs.Parts.{copies, restores, saves};
ghost use Rattle.tcel_core.specs.Paths.{points, stmt_points};
ghost use Rattle.tcel_core.specs.Plain.{plain_body, plain_expr, plain_item, plain_stmt};
ghost use Rattle.tcel_core.specs.declared.var.Var.{Var};
ghost use Rattle.tcel_rename.specs.Halves.{AddHalves, Adds, AreHalves, AreWithin, IsPlan, first_choice, has_statement_in, rest_choice, stmts_of};
ghost use Rattle.tcel_rename.specs.Sets.{by_list};

use crate::numbers::Numbers;
use crate::renaming::{renamed_expr, renamed_item};
use crate::sets::Sets;
use crate::splits::row_at;
use sqlite_items::Items;
use std::alloc::Global;
use tcel_core::{Body, CoreExpr, CoreStmt, Item, ItemSet};
use tcel_num::NoMemory;

/// What becomes of statements: what stands in the first part, and what in the rest.
#[derive(Debug, Drop)]
pub(crate) struct Halves {
    pub(crate) first: Items<CoreStmt>,
    pub(crate) rest: Items<CoreStmt>,
}

/// What becomes of a body.
#[cycle(halves)]
pub(crate) fn halve_body(
    alloc: Global,
    kept: &ItemSet,
    sets: &Sets,
    numbers: &Numbers,
    body: &Body,
) -> Result<Halves, NoMemory>
    requires { length numbers.now.inside ≤ 256 }
    ensures { IfOk result (λ halves. (vars : List Var) (whole : Block) → IsPlan (by_list vars whole kept.now.list) sets.now numbers.now →
        AreWithin (points (plain_body body.now)) (points whole) → AreHalves (by_list vars whole kept.now.list) (plain_body body.now) halves.first halves.rest) }
{
    let mut first = Items::new(alloc);
    let mut rest = Items::new(alloc);
    for stmt in body.list.as_slice() {
        halve_stmt(alloc, kept, sets, numbers, stmt, &mut first, &mut rest)?;
    }
    Ok(Halves { first, rest })
}

/// Adds what becomes of a statement.
#[cycle(halves)]
fn halve_stmt(
    alloc: Global,
    kept: &ItemSet,
    sets: &Sets,
    numbers: &Numbers,
    stmt: &CoreStmt,
    first: &mut Items<CoreStmt>,
    rest: &mut Items<CoreStmt>,
) -> Result<(), NoMemory>
    requires { length numbers.now.inside ≤ 256 }
    ensures { OnOk result ((vars : List Var) (whole : Block) → IsPlan (by_list vars whole kept.now.list) sets.now numbers.now →
        AreWithin (stmt_points (plain_stmt stmt.now)) (points whole) → AddHalves (by_list vars whole kept.now.list) (plain_stmt stmt.now) first.old first.new rest.old rest.new) }
{
    match stmt {
        CoreStmt::Item { id, item } => {
            halve_item(alloc, kept.has(*id), sets, numbers, *id, item, first, rest)?;
        }
        CoreStmt::If { id, test, yes, no } => {
            let held = halve_body(alloc, kept, sets, numbers, yes)?;
            let other = halve_body(alloc, kept, sets, numbers, no)?;
            halve_choice(alloc, numbers, *id, test, held, other, first, rest)?;
        }
        CoreStmt::Do {
            id,
            after,
            before,
            within,
            body,
        } => {
            let cut = halve_body(alloc, kept, sets, numbers, body)?;
            halve_timed(*id, *after, *before, *within, cut, first, rest)?;
        }
    }
    Ok(())
}

/// Adds what becomes of a block with a window, by what becomes of its body.
fn halve_timed(
    id: u32,
    after: Option<u64>,
    before: Option<u64>,
    within: Option<u64>,
    cut: Halves,
    first: &mut Items<CoreStmt>,
    rest: &mut Items<CoreStmt>,
) -> Result<(), NoMemory>
    ensures first { OnOk result (Adds first.old first.new
        (if has_statement_in cut.first then next (timed id (record { after = after; before = before; within = within }) (stmts_of cut.first)) done else done)) }
    ensures rest { OnOk result (rest.new ≡ rest.old ++ cut.rest) }
{
    let Halves {
        first: inside,
        rest: left,
    } = cut;
    push_timed(id, after, before, within, inside, first)?;
    rest.append(left)?;
    Ok(())
}

/// Adds a block with a window, where something stands in it.
fn push_timed(
    id: u32,
    after: Option<u64>,
    before: Option<u64>,
    within: Option<u64>,
    inside: Items<CoreStmt>,
    list: &mut Items<CoreStmt>,
) -> Result<(), NoMemory>
    ensures { OnOk result (Adds list.old list.new
        (if has_statement_in inside then next (timed id (record { after = after; before = before; within = within }) (stmts_of inside)) done else done)) }
{
    if inside.is_empty() {
        return Ok(());
    }
    push(list, timed_stmt(id, after, before, within, inside))?;
    Ok(())
}

/// Adds what becomes of an item, which is kept or not.
fn halve_item(
    alloc: Global,
    held: bool,
    sets: &Sets,
    numbers: &Numbers,
    id: u32,
    act: &Item,
    first: &mut Items<CoreStmt>,
    rest: &mut Items<CoreStmt>,
) -> Result<(), NoMemory>
    requires { length numbers.now.inside ≤ 256 }
    ensures { OnOk result ((vars : List Var) (whole : Block) (list : List Bool) → IsPlan (by_list vars whole list) sets.now numbers.now → held ≡ slice_index_or list id false →
        AddHalves (by_list vars whole list) (item id (plain_item act.now)) first.old first.new rest.old rest.new) }
{
    if held {
        let renamed = renamed_item(alloc, act, numbers.inside.as_slice())?;
        push(first, item_stmt(id, renamed))?;
        save(sets, numbers, id, first, rest)?;
        return Ok(());
    }
    let copied = renamed_item(alloc, act, &[])?;
    push(rest, item_stmt(id, copied))?;
    Ok(())
}

/// Adds what becomes of an `if`, by what becomes of its branches.
fn halve_choice(
    alloc: Global,
    numbers: &Numbers,
    id: u32,
    test: &CoreExpr,
    held: Halves,
    other: Halves,
    first: &mut Items<CoreStmt>,
    rest: &mut Items<CoreStmt>,
) -> Result<(), NoMemory>
    ensures first { OnOk result (let both = has_statement_in held.first || has_statement_in other.first in let split = both && (has_statement_in held.rest || has_statement_in other.rest) in
        Adds first.old first.new (first_choice numbers.now id (plain_expr test.now) both split (stmts_of held.first) (stmts_of other.first))) }
    ensures rest { OnOk result (let left = has_statement_in held.rest || has_statement_in other.rest in let split = (has_statement_in held.first || has_statement_in other.first) && left in
        Adds rest.old rest.new (rest_choice numbers.now id (plain_expr test.now) left split (stmts_of held.rest) (stmts_of other.rest))) }
{
    let inside = !held.first.is_empty() | !other.first.is_empty();
    let left = !held.rest.is_empty() | !other.rest.is_empty();
    let Halves {
        first: held_first,
        rest: held_rest,
    } = held;
    let Halves {
        first: other_first,
        rest: other_rest,
    } = other;
    push_first(
        alloc,
        numbers,
        id,
        test,
        inside,
        left,
        held_first,
        other_first,
        first,
    )?;
    push_rest(
        alloc, numbers, id, test, inside, left, held_rest, other_rest, rest,
    )?;
    Ok(())
}

/// Adds to both parts what a kept item's live variables ask for: they are saved behind it, and restored in the rest.
fn save(
    sets: &Sets,
    numbers: &Numbers,
    id: u32,
    first: &mut Items<CoreStmt>,
    rest: &mut Items<CoreStmt>,
) -> Result<(), NoMemory>
    requires { length numbers.now.inside ≤ 256 }
    ensures first { OnOk result ((vars : List Var) (whole : Block) (list : List Bool) → IsPlan (by_list vars whole list) sets.now numbers.now →
        Adds first.old first.new (saves (by_list vars whole list) id)) }
    ensures rest { OnOk result ((vars : List Var) (whole : Block) (list : List Bool) → IsPlan (by_list vars whole list) sets.now numbers.now →
        Adds rest.old rest.new (restores (by_list vars whole list) id)) }
{
    let live = row_at(sets.lives.as_slice(), id);
    let inside = numbers.inside.as_slice();
    let mut next = number_at(numbers.starts.as_slice(), id);
    for v in 0..inside.len() {
        next = save_one(live.has(v as u32), inside[v], next, v as u32, first, rest)?;
    }
    Ok(())
}

/// The number in a list, or 0 past its end.
fn number_at(numbers: &[u32], id: u32) -> u32
    ensures { result ≡ slice_index_or numbers.now id 0 }
{
    let at = id as usize;
    if at < numbers.len() { numbers[at] } else { 0 }
}

/// Saves one variable where an item is live for it: from its copy to the next place, and from there in the rest. The place
/// behind that.
fn save_one(
    live: bool,
    copy: u32,
    next: u32,
    var: u32,
    first: &mut Items<CoreStmt>,
    rest: &mut Items<CoreStmt>,
) -> Result<u32, NoMemory>
    ensures first { OnOk result (Adds first.old first.new (copies (if live then (copy, next) ∷ [] else []))) }
    ensures rest { OnOk result (Adds rest.old rest.new (copies (if live then (next, var) ∷ [] else []))) }
    ensures next { IfOk result (λ n. n ≡ (if live then next + 1 else next)) }
{
    if !live {
        return Ok(next);
    }
    push_copy(copy, next, first)?;
    push_copy(next, var, rest)?;
    match next.checked_add(1) {
        Some(behind) => Ok(behind),
        None => Err(NoMemory),
    }
}

/// Adds a copy from the first variable to the second, where that is so.
pub(crate) fn push_copy_where(
    so: bool,
    from: u32,
    to: u32,
    list: &mut Items<CoreStmt>,
) -> Result<(), NoMemory>
    ensures { OnOk result (Adds list.old list.new (copies (if so then (from, to) ∷ [] else []))) }
{
    if !so {
        return Ok(());
    }
    push_copy(from, to, list)?;
    Ok(())
}

fn push_copy(from: u32, to: u32, list: &mut Items<CoreStmt>) -> Result<(), NoMemory>
    ensures { OnOk result (Adds list.old list.new (copies ((from, to) ∷ []))) }
{
    push(list, item_stmt(0, Item::Copy(from, to)))
}

/// Adds a statement.
fn push(list: &mut Items<CoreStmt>, stmt: CoreStmt) -> Result<(), NoMemory>
    ensures { OnOk result (Adds list.old list.new (next (plain_stmt stmt) done)) }
{
    list.push(stmt)?;
    Ok(())
}

fn item_stmt(id: u32, act: Item) -> CoreStmt
    ensures { plain_stmt result ≡ item id (plain_item act) }
{
    CoreStmt::Item { id, item: act }
}

fn assign_stmt(var: u32, value: CoreExpr) -> CoreStmt
    ensures { plain_stmt result ≡ item 0 (assign var (plain_expr value)) }
{
    CoreStmt::Item {
        id: 0,
        item: Item::Assign(var, value),
    }
}

fn variable_expr(var: u32) -> CoreExpr
    ensures { plain_expr result ≡ variable var }
{
    CoreExpr::Var(var)
}

fn choice_stmt(id: u32, test: CoreExpr, held: Items<CoreStmt>, other: Items<CoreStmt>) -> CoreStmt
    ensures { plain_stmt result ≡ choice id (plain_expr test) (stmts_of held) (stmts_of other) }
{
    CoreStmt::If {
        id,
        test,
        yes: Body { list: held },
        no: Body { list: other },
    }
}

fn timed_stmt(
    id: u32,
    after: Option<u64>,
    before: Option<u64>,
    within: Option<u64>,
    list: Items<CoreStmt>,
) -> CoreStmt
    ensures { plain_stmt result ≡ timed id (record { after = after; before = before; within = within }) (stmts_of list) }
{
    CoreStmt::Do {
        id,
        after,
        before,
        within,
        body: Body { list },
    }
}

/// Adds the `if` of the first part, where a kept item stands in it: by its test, or by the test's truth where something is
/// left of it for the rest.
fn push_first(
    alloc: Global,
    numbers: &Numbers,
    id: u32,
    test: &CoreExpr,
    inside: bool,
    left: bool,
    held: Items<CoreStmt>,
    other: Items<CoreStmt>,
    list: &mut Items<CoreStmt>,
) -> Result<(), NoMemory>
    ensures { OnOk result (Adds list.old list.new (first_choice numbers.now id (plain_expr test.now) inside (inside && left) (stmts_of held) (stmts_of other))) }
{
    if !inside {
        return Ok(());
    }
    let renamed = renamed_expr(alloc, test, numbers.inside.as_slice())?;
    if !left {
        push(list, choice_stmt(id, renamed, held, other))?;
        return Ok(());
    }
    let truth = number_at(numbers.truths.as_slice(), id);
    push(list, assign_stmt(truth, renamed))?;
    push(list, choice_stmt(id, variable_expr(truth), held, other))?;
    Ok(())
}

/// Adds the `if` of the rest, where something is left of it.
fn push_rest(
    alloc: Global,
    numbers: &Numbers,
    id: u32,
    test: &CoreExpr,
    inside: bool,
    left: bool,
    held: Items<CoreStmt>,
    other: Items<CoreStmt>,
    list: &mut Items<CoreStmt>,
) -> Result<(), NoMemory>
    ensures { OnOk result (Adds list.old list.new (rest_choice numbers.now id (plain_expr test.now) left (inside && left) (stmts_of held) (stmts_of other))) }
{
    if !left {
        return Ok(());
    }
    if inside {
        let truth = number_at(numbers.truths.as_slice(), id);
        push(list, choice_stmt(id, variable_expr(truth), held, other))?;
        return Ok(());
    }
    let copied = renamed_expr(alloc, test, &[])?;
    push(list, choice_stmt(id, copied, held, other))?;
    Ok(())
}
