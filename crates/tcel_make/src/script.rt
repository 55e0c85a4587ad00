ghost use Rattle.std.specs.Prelude.{◌≡◌, ◌<◌, ◌≤◌, ◌++◌, IfOk, OnOk, length};
ghost use Rattle.std.specs.List.{flat_map, range_with_len};
ghost use Rattle.tcel_make.specs.Script.{line_text, script_text, value_text};

use crate::writing::{put, put_number};
use std::alloc::Global;
use tcel_num::NoMemory;

/// A script for the programs of so many tasks: a line a task, of a hundred values each (docs/formats.md, "Made programs").
pub fn make_script(alloc: Global, tasks: u8) -> Result<Vec<u8>, NoMemory>
    requires some { 1 ≤ tasks }
    requires most { tasks ≤ 16 }
    ensures text { IfOk result (λ text. text.items ≡ script_text tasks) }
    ensures short { IfOk result (λ text. length text.items ≤ 65536) }
{
    let mut text = Vec::new(alloc);
    for task in 0..tasks {
        put_line(&mut text, task as u64)?;
    }
    Ok(text)
}

fn put_line(text: &mut Vec<u8>, task: u64) -> Result<(), NoMemory>
    requires { task < 16 }
    ensures { OnOk result (text.new.items ≡ text.old.items ++ line_text task) }
{
    put_number(text, b"t", task)?;
    put(text, b" s")?;
    put_values(text, task, 100)?;
    put(text, b"\n")?;
    Ok(())
}

/// Appends a task's first values, so many.
fn put_values(text: &mut Vec<u8>, task: u64, count: u64) -> Result<(), NoMemory>
    requires task { task < 16 }
    requires count { count ≤ 100 }
    ensures { OnOk result (text.new.items ≡ text.old.items ++ flat_map (value_text task) (range_with_len 0 count)) }
{
    for turn in 0..count {
        put_number(text, b" ", (task + 1) * (turn + 1))?;
    }
    Ok(())
}
