ghost use Rattle.std.specs.Prelude.{◌≡◌, ◌<◌, ◌≤◌, ◌++◌, IfOk, OnOk, length};
ghost use Rattle.tcel_make.specs.Program.{period, program_text, task_text, turns};

use crate::writing::{put, put_number, put_times};
use std::alloc::Global;
use tcel_num::NoMemory;

const DECLARATIONS: &[u8] =
    b" {\n  input s;\n  output o;\n  state int n;\n  local int x;\n  local int i;\n  every ";

/// A program of so many tasks, in canonical text. Equal seeds, and seeds with the same last three digits, make equal
/// programs (docs/formats.md, "Made programs").
pub fn make(alloc: Global, seed: u64, tasks: u8) -> Result<Vec<u8>, NoMemory>
    requires some { 1 ≤ tasks }
    requires most { tasks ≤ 16 }
    ensures text { IfOk result (λ text. text.items ≡ program_text seed tasks) }
    ensures short { IfOk result (λ text. length text.items ≤ 65536) }
{
    let mut text = Vec::new(alloc);
    for task in 0..tasks {
        put_task(&mut text, seed, task as u64)?;
    }
    Ok(text)
}

fn put_task(text: &mut Vec<u8>, seed: u64, task: u64) -> Result<(), NoMemory>
    requires { task < 16 }
    ensures { OnOk result (text.new.items ≡ text.old.items ++ task_text seed task) }
{
    put_number(text, b"task t", task)?;
    put_number(text, b" priority ", 100 - task)?;
    put_number(text, DECLARATIONS, period(task))?;
    put_number(text, b" finish within ", 140 * task + 100)?;
    put_number(text, b" {\n    receive x from s;\n    send x + ", task)?;
    put_number(text, b" to o;\n    for i < ", turns(seed, task))?;
    put(text, b" {\n      n := n + x;\n    }\n")?;
    put_times(text, b"    n := n + x;\n", 20)?;
    put(text, b"  }\n}\n")?;
    Ok(())
}

/// The period of a task, in ticks.
fn period(task: u64) -> u64
    ensures { result ≡ period task }
{
    4000 * 2u64.pow((task % 3) as u32)
}

/// The turns of a task's loop.
fn turns(seed: u64, task: u64) -> u64
    requires { task < 16 }
    ensures { result ≡ turns seed task }
{
    1 + (seed % 1000 + 3 * task) % 7
}
