ghost use Rattle.std.specs.Prelude.{◌≡◌, ◌<◌, [], length, map, slice_index_or, unwrap_or, pos, IfErr, IfOk};
ghost use Rattle.tcel_script.specs.Script.{value_at, with_stream};
ghost use Rattle.tcel_script.specs.Rows.{streams_in};

use crate::row::{Row, Rows, stream_at};
use sqlite_items::Items;
use std::alloc::Global;
use std::marker::Model;
use tcel_num::NoMemory;

/// The values of a script's inputs. Contracts see it as the streams of all tasks: for each task, for
/// each of its inputs, its values.
#[derive(Debug, Drop)]
pub struct Script {
    rows: Rows,
}

impl Model for Script {
    ghost use Rattle.std.specs.Prelude.{List, ℤ};

    ghost Value = { List (List (List ℤ)) };

    ghost use Rattle.tcel_script.specs.Rows.{streams_in};

    ghost view = { λ script. streams_in script.rows.items };
}

impl Script {
    pub(crate) fn new(rows: Rows) -> Script
        ensures { result ≡ streams_in rows.items }
    {
        Script { rows }
    }

    /// The `n`-th value, from 0, of an input of a task, and 0 where there is none.
    pub fn value(&self, task: usize, port: usize, n: u64) -> i64
        ensures { result ≡ value_at self.now task port n }
    {
        match self.rows.get(task) {
            None => 0,
            Some(row) => value_in(row, port, n),
        }
    }

    /// The streams of the task's inputs, in order.
    pub fn lists(&self, alloc: Global, task: usize) -> Result<Vec<Vec<i64>>, NoMemory>
        requires { task < length self.now }
        ensures { IfOk result (λ lists. map (λ v. v.items) lists.items ≡ slice_index_or self.now task []) }
    {
        copies(alloc, self.rows[task].as_slice())
    }

    /// Makes these values the whole stream of an input of a task. All other streams stay, and after a refusal all do.
    pub fn set(&mut self, task: usize, port: usize, values: &[i64]) -> Result<(), NoMemory>
        requires task { task < length self.old }
        requires port { port < length (slice_index_or self.old task []) }
        ensures ok { IfOk result (λ _. self.new ≡ with_stream self.old task port values.now) }
        ensures refused { IfErr result (λ _. self.new ≡ self.old) }
    {
        let stream = Items::from_slice(*self.rows.allocator(), values)?;
        self.rows[task].set(port, Some(stream));
        Ok(())
    }
}

fn value_in(row: &Row, port: usize, n: u64) -> i64
    ensures { result ≡ slice_index_or (slice_index_or (map (λ found. unwrap_or found []) row.now) port []) n (pos 0) }
{
    match stream_at(row, port) {
        None => 0,
        Some(values) => value_of(values, n),
    }
}

fn value_of(values: &Items<i64>, n: u64) -> i64
    ensures { result ≡ slice_index_or values.now n (pos 0) }
{
    values.get(n as usize).copied().unwrap_or(0)
}

fn copies(alloc: Global, row: &[Option<Items<i64>>]) -> Result<Vec<Vec<i64>>, NoMemory>
    ensures { IfOk result (λ lists. map (λ v. v.items) lists.items ≡ map (λ found. unwrap_or found []) row.now) }
{
    let mut lists = Vec::new(alloc);
    for found in row {
        lists.push(copy(alloc, found)?)?;
    }
    Ok(lists)
}

fn copy(alloc: Global, found: &Option<Items<i64>>) -> Result<Vec<i64>, NoMemory>
    ensures { IfOk result (λ values. values.items ≡ unwrap_or found.now []) }
{
    match found {
        None => Ok(Vec::new(alloc)),
        Some(values) => Ok(Vec::from_slice(alloc, values.as_slice())?),
    }
}
