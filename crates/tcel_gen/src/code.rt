ghost use Rattle.std.specs.Prelude.{◌≡◌, ◌++◌, ◌+◌, IfOk, OnOk, length, true};
ghost use Rattle.tcel_core.specs.Contents.{act_loops, loops, stmt_loops};
ghost use Rattle.tcel_core.specs.Plain.{plain_body, plain_item, plain_stmt};
ghost use Rattle.tcel_code.specs.Code.{act_code, block_code, stmt_code};
ghost use Rattle.tcel_code.specs.Counters.{behind};
ghost use Rattle.tcel_gen.specs.Codable.{ActIsCodable, IsCodable, StmtIsCodable};
ghost use Rattle.tcel_gen.specs.Seen.{counters_at};

use crate::cells::Cells;
use crate::firsts::one_more;
use crate::lines::{push_expr, push_line};
use crate::pieces::{
    begin_choice, begin_for, begin_while, counter_of, end_choice, end_while, has_statements,
    part_choice, push_hold,
};
use sqlite_items::Items;
use tcel_core::{Body, CoreStmt, Item};
use tcel_image::{Instr, Line};
use tcel_num::NoMemory;

/// Appends the code of statements. In a loop their counters stand in text order from a cell on, and the cell behind them is
/// answered; outside loops that cell is of no account, since counters go by item.
#[cycle(code)]
pub(crate) fn push_body(
    cells: &Cells,
    body: &Body,
    in_loop: bool,
    cell: u32,
    code: &mut Items<Line>,
) -> Result<u32, NoMemory>
    requires { IsCodable (plain_body body.now) }
    ensures code { OnOk result (code.new ≡ code.old ++ block_code (plain_body body.now) cells.now.places (length code.old) (counters_at cells.now in_loop cell)) }
    ensures behind { IfOk result (λ next. counters_at cells.now in_loop next ≡ behind (counters_at cells.now in_loop cell) (loops (plain_body body.now))) }
{
    let mut next = cell;
    for stmt in body.list.as_slice() {
        next = push_stmt(cells, stmt, in_loop, next, code)?;
    }
    Ok(next)
}

#[cycle(code)]
fn push_stmt(
    cells: &Cells,
    stmt: &CoreStmt,
    in_loop: bool,
    cell: u32,
    code: &mut Items<Line>,
) -> Result<u32, NoMemory>
    requires { StmtIsCodable (plain_stmt stmt.now) }
    ensures code { OnOk result (code.new ≡ code.old ++ stmt_code (plain_stmt stmt.now) cells.now.places (length code.old) (counters_at cells.now in_loop cell)) }
    ensures behind { IfOk result (λ next. counters_at cells.now in_loop next ≡ behind (counters_at cells.now in_loop cell) (stmt_loops (plain_stmt stmt.now))) }
{
    match stmt {
        CoreStmt::Item { id, item } => {
            let counter = counter_of(cells, *id, in_loop, cell)?;
            push_item(cells, item, counter, code)
        }
        CoreStmt::If {
            id: _,
            test,
            yes,
            no,
        } => {
            let branch = begin_choice(&cells.places, test, code)?;
            let between = push_body(cells, yes, in_loop, cell, code)?;
            let other = has_statements(no);
            let jump = part_choice(branch, other, code)?;
            let end = push_body(cells, no, in_loop, between, code)?;
            end_choice(jump, other, code)?;
            Ok(end)
        }
        CoreStmt::Do {
            id: _,
            after,
            before: _,
            within: _,
            body,
        } => {
            push_hold(*after, body, code)?;
            let end = push_body(cells, body, in_loop, cell, code)?;
            Ok(end)
        }
    }
}

/// Appends the code of an item whose counters stand from a cell on; answers the cell behind them.
#[cycle(code)]
fn push_item(
    cells: &Cells,
    item: &Item,
    counter: u32,
    code: &mut Items<Line>,
) -> Result<u32, NoMemory>
    requires { ActIsCodable (plain_item item.now) }
    ensures code { OnOk result (code.new ≡ code.old ++ act_code (plain_item item.now) cells.now.places (length code.old) counter) }
    ensures behind { IfOk result (λ next. next ≡ counter + act_loops (plain_item item.now)) }
{
    let places = &cells.places;
    match item {
        Item::Assign(var, expr) => {
            push_expr(places, expr, 0, code)?;
            push_line(1, Instr::Put(places.place(*var)), code)?;
            Ok(counter)
        }
        Item::AssignAt(array, index, expr) => {
            push_expr(places, index, 0, code)?;
            push_expr(places, expr, 1, code)?;
            let put = Instr::PutAt(places.place(*array), places.width(*array));
            push_line(2, put, code)?;
            Ok(counter)
        }
        Item::Receive(var, port) => {
            push_line(0, Instr::Receive(*port, places.place(*var)), code)?;
            Ok(counter)
        }
        Item::Send(expr, port) => {
            push_expr(places, expr, 0, code)?;
            push_line(1, Instr::Send(*port), code)?;
            Ok(counter)
        }
        Item::For(var, turns, body) => {
            let top = begin_for(places, *var, counter, code)?;
            let end = push_body(cells, body, true, one_more(counter)?, code)?;
            push_line(0, Instr::Loop(counter, *turns, top), code)?;
            Ok(end)
        }
        Item::While(test, turns, body) => {
            let top = begin_while(counter, code)?;
            let branch = begin_choice(places, test, code)?;
            let end = push_body(cells, body, true, one_more(counter)?, code)?;
            push_line(0, Instr::Loop(counter, *turns, top), code)?;
            end_while(branch, code)?;
            Ok(end)
        }
        Item::Copy(from, to) => {
            let width = places.width(*from);
            let copy = Instr::Copy(places.place(*from), places.place(*to), width);
            push_line(0, copy, code)?;
            Ok(counter)
        }
    }
}
