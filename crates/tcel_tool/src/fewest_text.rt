ghost use Rattle.std.specs.Prelude.{◌≡◌, ◌≤◌, ◌++◌, IfOk, OnOk, length, map};
ghost use Rattle.std.specs.List.{flat_map};
ghost use Rattle.tcel_core.specs.Plain.{plain_set, plain_task};
ghost use Rattle.tcel_driver.specs.Steps.{ArePaired};
ghost use Rattle.tcel_tool.specs.FewestText.{IsFewestText, fault_line, found_text, name_if, names_in, names_text, of_line, plus_name, point_text};
ghost use Rattle.tcel_tool.specs.FewestText.{slice_line, why_text};
ghost use Rattle.tcel_tool.specs.FormedSet.{plain_forms};

use crate::choice::name_at;
use crate::formed::FormedSet;
use crate::report::{put_name, put_part};
use crate::tool::name_bytes;
use crate::writing::put;
use std::alloc::Global;
use tcel_core::{CoreTask, Set};
use tcel_demand::Late;
use tcel_fewest::{SetFault, Why, fewest, has};
use tcel_num::{Name, NoMemory};

/// The first set of sliced tasks that fits, and what is wrong with each set before it (docs/formats.md).
pub(crate) fn fewest_text(alloc: Global, formed: &FormedSet) -> Result<Vec<u8>, NoMemory>
    requires paired { ArePaired formed.now.forms.whole formed.now.forms.sliced formed.now.forms.hyper }
    requires one_each { length formed.now.forms.whole ≡ length formed.now.set.tasks }
    requires few { length formed.now.set.tasks ≤ 12 }
    ensures { IfOk result (λ text. IsFewestText (plain_forms formed.now) text.items) }
{
    let answer = fewest(alloc, &formed.forms)?;
    let mut text = Vec::new(alloc);
    put_found(alloc, &mut text, answer.found, &formed.set)?;
    put_faults(alloc, &mut text, answer.faults.as_slice(), &formed.set)?;
    Ok(text)
}

/// How many tasks are in the set that fits, and their names; or that none fits.
fn put_found(
    alloc: Global,
    out: &mut Vec<u8>,
    found: Option<u16>,
    set: &Set,
) -> Result<(), NoMemory>
    requires { length set.now.tasks ≤ 12 }
    ensures { OnOk result (out.new.items ≡ out.old.items ++ found_text (plain_set set.now) found) }
{
    let tasks = set.tasks.len();
    let Some(found) = found else {
        put(out, b"fewest none")?;
        return put_of(out, tasks);
    };
    let names = names_in(alloc, found, set)?;
    put_part(out, b"fewest ", names.len() as u64)?;
    put_of(out, tasks)?;
    put_slices(out, &names)
}

/// Out of how many tasks.
fn put_of(out: &mut Vec<u8>, tasks: usize) -> Result<(), NoMemory>
    ensures { OnOk result (out.new.items ≡ out.old.items ++ of_line tasks) }
{
    put_part(out, b" of ", tasks as u64)?;
    put(out, b"\n")
}

/// A line for each of these tasks.
fn put_slices(out: &mut Vec<u8>, names: &[Name]) -> Result<(), NoMemory>
    ensures { OnOk result (out.new.items ≡ out.old.items ++ flat_map slice_line names.now) }
{
    for name in names {
        put_slice(out, name)?;
    }
    Ok(())
}

fn put_slice(out: &mut Vec<u8>, name: &Name) -> Result<(), NoMemory>
    ensures { OnOk result (out.new.items ≡ out.old.items ++ slice_line name.now) }
{
    put(out, b"slice ")?;
    put(out, name.bytes())?;
    put(out, b"\n")
}

/// A line for each of these faults.
fn put_faults(
    alloc: Global,
    out: &mut Vec<u8>,
    faults: &[SetFault],
    set: &Set,
) -> Result<(), NoMemory>
    requires { length set.now.tasks ≤ 12 }
    ensures { OnOk result (out.new.items ≡ out.old.items ++ flat_map (fault_line (plain_set set.now)) faults.now) }
{
    for fault in faults {
        put_fault(alloc, out, *fault, set)?;
    }
    Ok(())
}

fn put_fault(alloc: Global, out: &mut Vec<u8>, fault: SetFault, set: &Set) -> Result<(), NoMemory>
    requires { length set.now.tasks ≤ 12 }
    ensures { OnOk result (out.new.items ≡ out.old.items ++ fault_line (plain_set set.now) fault) }
{
    let names = names_in(alloc, fault.tasks, set)?;
    put(out, b"set ")?;
    put_names(out, &names)?;
    put_why(out, fault.why, set)
}

fn put_why(out: &mut Vec<u8>, why: Why, set: &Set) -> Result<(), NoMemory>
    ensures { OnOk result (out.new.items ≡ out.old.items ++ why_text (plain_set set.now) why) }
{
    match why {
        Why::Overload { demand, hyper } => {
            put_part(out, b" overload demand ", demand)?;
            put_part(out, b" hyperperiod ", hyper)?;
            put(out, b"\n")
        }
        Why::Late(late) => {
            put(out, b" late task ")?;
            put(out, name_bytes(&name_at(set, late.task)))?;
            put_point(out, late)
        }
    }
}

/// The late point, behind the name of its task.
fn put_point(out: &mut Vec<u8>, late: Late) -> Result<(), NoMemory>
    ensures { OnOk result (out.new.items ≡ out.old.items ++ point_text late) }
{
    put_part(out, b" frame ", late.frame)?;
    put(out, b" point ")?;
    put_name(out, late.name)?;
    put_part(out, b" response ", late.response)?;
    put_part(out, b" bound ", late.bound)?;
    put(out, b"\n")
}

/// The names joined by `+`, and a word for no names.
fn put_names(out: &mut Vec<u8>, names: &[Name]) -> Result<(), NoMemory>
    ensures { OnOk result (out.new.items ≡ out.old.items ++ names_text names.now) }
{
    match names {
        [] => put(out, b"none"),
        [first, rest @ ..] => {
            put(out, first.bytes())?;
            put_more(out, rest)
        }
    }
}

/// The names, each behind a `+`.
fn put_more(out: &mut Vec<u8>, names: &[Name]) -> Result<(), NoMemory>
    ensures { OnOk result (out.new.items ≡ out.old.items ++ flat_map plus_name names.now) }
{
    for name in names {
        put(out, b"+")?;
        put(out, name.bytes())?;
    }
    Ok(())
}

/// The names of the tasks that are in a set of this number.
fn names_in(alloc: Global, number: u16, set: &Set) -> Result<Vec<Name>, NoMemory>
    requires { length set.now.tasks ≤ 12 }
    ensures { IfOk result (λ names. names.items ≡ names_in number (plain_set set.now)) }
{
    let mut names = Vec::new(alloc);
    add_names(&mut names, number, set.tasks.as_slice())?;
    Ok(names)
}

/// Adds those of the tasks that are in it, where these are the lowest tasks.
fn add_names(names: &mut Vec<Name>, number: u16, tasks: &[CoreTask]) -> Result<(), NoMemory>
    requires { length tasks.now ≤ 12 }
    ensures { OnOk result (names.new.items ≡ names.old.items ++ names_in number (map plain_task tasks.now)) }
{
    match tasks {
        [] => Ok(()),
        [task, rest @ ..] => {
            add_name(names, has(number, rest.len()), task.name)?;
            add_names(names, number, rest)
        }
    }
}

/// Adds the name, where its task is in the set.
fn add_name(names: &mut Vec<Name>, in_set: bool, name: Name) -> Result<(), NoMemory>
    ensures { OnOk result (names.new.items ≡ names.old.items ++ name_if in_set name) }
{
    if in_set {
        names.push(name)?;
    }
    Ok(())
}
