ghost use Rattle.std.specs.Prelude.{◌≡◌, ◌≤◌, [], ◌∷◌, IfOk, IfErr, length, take};
ghost use Rattle.tcel_core.specs.Cells.{all_words};
ghost use Rattle.tcel_core.specs.Evaluation.{Left, with_events};
ghost use Rattle.tcel_core.specs.Outcome.{event};
ghost use Rattle.tcel_core.specs.Meaning.{exec, exec_act, exec_stmt};
ghost use Rattle.tcel_core.specs.Plain.{plain_body, plain_item, plain_stmt};
ghost use Rattle.tcel_core.specs.Scope.{ActFits, Fits, StmtFits};

use crate::body::{Body, CoreStmt, Item};
use crate::bounds::Bounds;
use crate::event::{Event, EventKind};
use crate::inputs::Inputs;
use crate::layout::Layout;
use crate::value::{is_met, value};
use tcel_num::NoMemory;
use tcel_word::{copy, set_element};

/// Runs a body.
#[cycle(evaluate)]
pub(crate) fn run_body(
    body: &Body,
    layout: &Layout,
    bounds: &Bounds,
    cells: &mut [i64],
    inputs: &mut Inputs,
    events: &mut Vec<Event>,
) -> Result<(), NoMemory>
    requires fits { Fits (plain_body body.now) layout.now }
    requires words { length cells.old ≡ all_words layout.now }
    requires entered { bounds.now.entered ≤ length events.old.items }
    ensures ok { IfOk result (λ _. Left bounds.now events.old.items
        (exec (plain_body body.now) layout.now (record { cells = cells.old; inputs = inputs.old })) cells.new inputs.new events.new.items) }
    ensures words { length cells.new ≡ all_words layout.now }
    ensures kept { take (length events.old.items) events.new.items ≡ events.old.items }
{
    for stmt in body.list.as_slice() {
        run_stmt(stmt, layout, bounds, cells, inputs, events)?;
    }
    Ok(())
}

#[cycle(evaluate)]
fn run_stmt(
    stmt: &CoreStmt,
    layout: &Layout,
    bounds: &Bounds,
    cells: &mut [i64],
    inputs: &mut Inputs,
    events: &mut Vec<Event>,
) -> Result<(), NoMemory>
    requires fits { StmtFits (plain_stmt stmt.now) layout.now }
    requires words { length cells.old ≡ all_words layout.now }
    requires entered { bounds.now.entered ≤ length events.old.items }
    ensures ok { IfOk result (λ _. Left bounds.now events.old.items
        (exec_stmt (plain_stmt stmt.now) layout.now (record { cells = cells.old; inputs = inputs.old })) cells.new inputs.new events.new.items) }
    ensures words { length cells.new ≡ all_words layout.now }
    ensures kept { take (length events.old.items) events.new.items ≡ events.old.items }
{
    match stmt {
        CoreStmt::Item { id: _, item } => run_item(item, layout, bounds, cells, inputs, events),
        CoreStmt::If {
            id: _,
            test,
            yes,
            no,
        } => {
            if is_met(test, layout, cells) {
                run_body(yes, layout, bounds, cells, inputs, events)
            } else {
                run_body(no, layout, bounds, cells, inputs, events)
            }
        }
        CoreStmt::Do {
            id: _,
            after,
            before,
            within,
            body,
        } => {
            let inner = bounds.narrowed(*after, *before, *within, events.len());
            run_body(body, layout, &inner, cells, inputs, events)
        }
    }
}

#[cycle(evaluate)]
fn run_item(
    item: &Item,
    layout: &Layout,
    bounds: &Bounds,
    cells: &mut [i64],
    inputs: &mut Inputs,
    events: &mut Vec<Event>,
) -> Result<(), NoMemory>
    requires fits { ActFits (plain_item item.now) layout.now }
    requires words { length cells.old ≡ all_words layout.now }
    requires entered { bounds.now.entered ≤ length events.old.items }
    ensures ok { IfOk result (λ _. Left bounds.now events.old.items
        (exec_act (plain_item item.now) layout.now (record { cells = cells.old; inputs = inputs.old })) cells.new inputs.new events.new.items) }
    ensures words { length cells.new ≡ all_words layout.now }
    ensures kept { take (length events.old.items) events.new.items ≡ events.old.items }
{
    match item {
        Item::Assign(var, expr) => {
            cells[layout.place(*var)] = value(expr, layout, cells);
            Ok(())
        }
        Item::AssignAt(array, index, expr) => {
            let index = value(index, layout, cells);
            let word = value(expr, layout, cells);
            set_element(
                cells,
                layout.place(*array),
                layout.width(*array),
                index,
                word,
            );
            Ok(())
        }
        Item::Receive(var, port) => {
            let word = inputs.next(*port);
            cells[layout.place(*var)] = word;
            push_event(bounds, EventKind::Receive, *port, word, events)
        }
        Item::Send(expr, port) => {
            let word = value(expr, layout, cells);
            push_event(bounds, EventKind::Send, *port, word, events)
        }
        Item::For(var, turns, body) => {
            for turn in 0..*turns {
                cells[layout.place(*var)] = i64::from(turn);
                run_body(body, layout, bounds, cells, inputs, events)?;
            }
            Ok(())
        }
        Item::While(test, turns, body) => {
            let mut left = *turns;
            while left > 0 && is_met(test, layout, cells) {
                run_body(body, layout, bounds, cells, inputs, events)?;
                left -= 1;
            }
            Ok(())
        }
        Item::Copy(from, to) => {
            copy(
                cells,
                layout.place(*from),
                layout.place(*to),
                layout.width(*from),
            );
            Ok(())
        }
    }
}

/// Appends an event that stands in these blocks.
fn push_event(
    bounds: &Bounds,
    kind: EventKind,
    port: u32,
    value: i64,
    events: &mut Vec<Event>,
) -> Result<(), NoMemory>
    ensures ok { IfOk result (λ _. events.new.items ≡ with_events bounds.now events.old.items (event kind port value ∷ [])) }
    ensures kept { IfErr result (λ _. events.new.items ≡ events.old.items) }
{
    let latest = bounds.last_time(events.len());
    events.push(Event {
        port,
        kind,
        value,
        earliest: bounds.earliest,
        latest,
    })?;
    Ok(())
}
