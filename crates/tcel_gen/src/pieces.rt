ghost use Rattle.std.specs.Prelude.{◌≡◌, ◌++◌, ◌<◌, ◌≤◌, ◌+◌, ◌^◌, pos, [], IfOk, IfSome, OnOk, length, slice_set, true, None, if◌then◌else◌};
ghost use Rattle.tcel_core.specs.Cells.{place};
ghost use Rattle.tcel_core.specs.Contents.{has_event, has_statement};
ghost use Rattle.tcel_core.specs.Plain.{plain_body, plain_expr};
ghost use Rattle.tcel_image.specs.declared.image.Instr.TheVariants.{Branch, Const, Get, Jump, Put};
ghost use Rattle.tcel_code.specs.Code.{at, expr_code, hold_code};
ghost use Rattle.tcel_code.specs.Compilable.{height};
ghost use Rattle.tcel_code.specs.Counters.{counter_of};
ghost use Rattle.tcel_gen.specs.Seen.{counters_at};

use crate::cells::Cells;
use crate::events::body_has_event;
use crate::lines::{next_place, push_expr, push_line, set_line};
use crate::places::Places;
use sqlite_items::Items;
use tcel_core::{Body, CoreExpr};
use tcel_image::{Instr, Line};
use tcel_num::NoMemory;

/// The cell of an item's first counter: in a loop the next one, and outside by the item's place in the source.
pub(crate) fn counter_of(cells: &Cells, id: u32, in_loop: bool, cell: u32) -> Result<u32, NoMemory>
    ensures { IfOk result (λ counter. counter ≡ counter_of (counters_at cells.now in_loop cell) id) }
{
    if in_loop {
        return Ok(cell);
    }
    match cells.places.words().checked_add(cells.firsts.first(id)) {
        Some(counter) => Ok(counter),
        None => Err(NoMemory),
    }
}

/// Appends the hold of a `do` block, where it has one.
pub(crate) fn push_hold(
    after: Option<u64>,
    body: &Body,
    code: &mut Items<Line>,
) -> Result<(), NoMemory>
    requires { IfSome after (λ bound. bound < 2 ^ 32) }
    ensures { OnOk result (code.new ≡ code.old ++ hold_code (if has_event (plain_body body.now) then after else None)) }
{
    match after {
        Some(bound) if body_has_event(body) => push_line(0, Instr::Hold(bound as u32), code),
        _ => Ok(()),
    }
}

/// Appends a test, and a branch whose target is still to come; answers the branch's place.
pub(crate) fn begin_choice(
    places: &Places,
    test: &CoreExpr,
    code: &mut Items<Line>,
) -> Result<u32, NoMemory>
    requires { height (plain_expr test.now) ≤ 128 }
    ensures code { OnOk result (code.new ≡ code.old ++ (expr_code (plain_expr test.now) places.now 0 ++ at 1 (Branch 0))) }
    ensures branch { IfOk result (λ branch. branch ≡ length code.old + length (expr_code (plain_expr test.now) places.now 0)) }
{
    push_expr(places, test, 0, code)?;
    let branch = next_place(code)?;
    push_line(1, Instr::Branch(0), code)?;
    Ok(branch)
}

/// Whether a body has a statement.
pub(crate) fn has_statements(body: &Body) -> bool
    ensures { result ≡ has_statement (plain_body body.now) }
{
    !body.list.is_empty()
}

/// Appends a jump whose target is still to come, where there is other code.
fn push_jump(other: bool, code: &mut Items<Line>) -> Result<(), NoMemory>
    ensures { OnOk result (code.new ≡ code.old ++ (if other then at 0 (Jump 0) else [])) }
{
    if !other {
        return Ok(());
    }
    push_line(0, Instr::Jump(0), code)
}

/// Ends the `yes` code, with a jump where there is other code, and lets the branch lead behind it. Answers the jump's place.
pub(crate) fn part_choice(branch: u32, other: bool, code: &mut Items<Line>) -> Result<u32, NoMemory>
    requires { branch < length code.old }
    ensures code { OnOk result (let jump = if other then at 0 (Jump 0) else [] in
        code.new ≡ slice_set (code.old ++ jump) branch (record { instr = Branch (length (code.old ++ jump)); depth = 1 })) }
    ensures jump { IfOk result (λ jump. jump ≡ length code.old) }
{
    let jump = next_place(code)?;
    push_jump(other, code)?;
    let target = next_place(code)?;
    set_line(branch, 1, Instr::Branch(target), code);
    Ok(jump)
}

/// Lets the jump in front of other code, where there is such code, lead behind it.
pub(crate) fn end_choice(jump: u32, other: bool, code: &mut Items<Line>) -> Result<(), NoMemory>
    requires { other ≡ true → jump < length code.old }
    ensures { OnOk result (code.new ≡ (if other then slice_set code.old jump (record { instr = Jump (length code.old); depth = 0 }) else code.old)) }
{
    if !other {
        return Ok(());
    }
    let target = next_place(code)?;
    set_line(jump, 0, Instr::Jump(target), code);
    Ok(())
}

/// Appends the start of a `for`; answers where its rounds begin.
pub(crate) fn begin_for(
    places: &Places,
    var: u32,
    counter: u32,
    code: &mut Items<Line>,
) -> Result<u32, NoMemory>
    ensures code { OnOk result (code.new ≡ code.old ++ (at 0 (Const (pos 0)) ++ (at 1 (Put counter) ++ (at 0 (Get counter) ++ at 1 (Put (place places.now var)))))) }
    ensures top { IfOk result (λ top. top ≡ length code.old + 2) }
{
    let top = begin_while(counter, code)?;
    push_line(0, Instr::Get(counter), code)?;
    push_line(1, Instr::Put(places.place(var)), code)?;
    Ok(top)
}

/// Appends the start of a loop: its counter is set to 0. Answers where its rounds begin.
pub(crate) fn begin_while(counter: u32, code: &mut Items<Line>) -> Result<u32, NoMemory>
    ensures code { OnOk result (code.new ≡ code.old ++ (at 0 (Const (pos 0)) ++ at 1 (Put counter))) }
    ensures top { IfOk result (λ top. top ≡ length code.old + 2) }
{
    push_line(0, Instr::Const(0), code)?;
    push_line(1, Instr::Put(counter), code)?;
    let top = next_place(code)?;
    Ok(top)
}

/// Ends a `while`: its branch leads behind it.
pub(crate) fn end_while(branch: u32, code: &mut Items<Line>) -> Result<(), NoMemory>
    requires { branch < length code.old }
    ensures { OnOk result (code.new ≡ slice_set code.old branch (record { instr = Branch (length code.old); depth = 1 })) }
{
    let target = next_place(code)?;
    set_line(branch, 1, Instr::Branch(target), code);
    Ok(())
}
