ghost use Rattle.std.specs.Prelude.{◌≡◌, ◌<◌, [], length, map, position, slice_get, unwrap_or, None, IfOk};
ghost use Rattle.std.specs.Option.{option_copied};
ghost use Rattle.tcel_script.specs.Lines.{line_of, words};
ghost use Rattle.tcel_script.specs.Script.{same};
ghost use Rattle.tcel_script.specs.Rows.{FitsPorts, Takes, after_line, with_words, place_of, rows_of};

use crate::fail::ScriptFail;
use crate::line::{is_comment, next_word};
use crate::number::numbers_of;
use sqlite_items::Items;
use std::alloc::Global;
use tcel_num::{Name, NoMemory, PortRow};

/// For each input of a task, the values that a line gave.
pub(crate) type Row = Items<Option<Items<i64>>>;

/// A row for each task.
pub(crate) type Rows = Vec<Row>;

/// A place for each input, with no values yet.
pub(crate) fn empty_rows(alloc: Global, ports: &[PortRow]) -> Result<Rows, NoMemory>
    ensures { IfOk result (λ rows. rows.items ≡ rows_of ports.now []) }
{
    let mut rows = Vec::new(alloc);
    for row in ports {
        rows.push(empty_row(alloc, row.inputs.as_slice())?)?;
    }
    Ok(rows)
}

fn empty_row(alloc: Global, inputs: &[Name]) -> Result<Row, NoMemory>
    ensures { IfOk result (λ row. row ≡ map (λ _. None) inputs.now) }
{
    let mut row = Vec::new(alloc);
    for _input in inputs {
        row.push(None)?;
    }
    Ok(Items::from_vec(row))
}

/// The values at this place, where there are some.
pub(crate) fn stream_at(row: &Row, port: usize) -> Option<&Items<i64>>
    ensures { option_copied result ≡ unwrap_or (slice_get row.now port) None }
{
    row.get(port)?.as_ref()
}

/// Takes the values of the line with this number, which counts from 1.
pub(crate) fn take_line(
    alloc: Global,
    line: &[u8],
    number: u32,
    ports: &[PortRow],
    rows: &mut Rows,
) -> Result<(), ScriptFail>
    requires { FitsPorts ports.now rows.old.items }
    ensures { Takes result rows.new.items (after_line ports.now number rows.old.items (line_of line.now)) }
{
    if is_comment(line) {
        return Ok(());
    }
    let Some((task, rest)) = next_word(line) else {
        return Ok(());
    };
    let Some((port, rest)) = next_word(rest) else {
        return Err(ScriptFail::BadLine { line: number });
    };
    match place_of(ports, task, port) {
        None => Err(ScriptFail::NoPort { line: number }),
        Some((row, place)) => take_values(alloc, rest, number, &mut rows[row], place),
    }
}

/// Takes the values of such a line's text for the input at this place.
fn take_values(
    alloc: Global,
    text: &[u8],
    number: u32,
    row: &mut Row,
    place: usize,
) -> Result<(), ScriptFail>
    requires { place < length row.old }
    ensures { Takes result row.new (with_words number row.old place (words text.now)) }
{
    if stream_at(row, place).is_some() {
        return Err(ScriptFail::PortTwice { line: number });
    }
    let Some(values) = numbers_of(alloc, text)? else {
        return Err(ScriptFail::Number { line: number });
    };
    row.set(place, Some(Items::from_vec(values)));
    Ok(())
}

/// The places of the task and of its input, where there are such.
fn place_of(ports: &[PortRow], task: &[u8], port: &[u8]) -> Option<(usize, usize)>
    ensures { result ≡ place_of ports.now task.now port.now }
{
    let row = task_place(ports, task)?;
    let place = input_place(ports[row].inputs.as_slice(), port)?;
    Some((row, place))
}

fn task_place(ports: &[PortRow], task: &[u8]) -> Option<usize>
    ensures { result ≡ position (λ row. same row.task task.now) ports.now }
{
    ports.iter().position(|row| row.task.bytes() == task)
}

fn input_place(inputs: &[Name], port: &[u8]) -> Option<usize>
    ensures { result ≡ position (λ input. same input port.now) inputs.now }
{
    inputs.iter().position(|input| input.bytes() == port)
}
