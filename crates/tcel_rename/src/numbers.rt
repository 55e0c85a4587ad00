ghost use Rattle.std.specs.Prelude.{◌≡◌, ◌<◌, ◌≤◌, ◌^◌, ◌++◌, ◌∷◌, [], if◌then◌else◌, IfOk, OnOk, false, flat_map, length, slice_index_or};
ghost use Rattle.tcel_core.specs.Numbering.{item_numbers, numbers_from};
ghost use Rattle.tcel_core.specs.Plain.{plain_body, plain_task};
ghost use Rattle.tcel_core.specs.Rows.{stands_in};
ghost use Rattle.tcel_core.specs.Sound.{IsSoundTask};
ghost use Rattle.tcel_rename.specs.Lives.{stands_at};
ghost use Rattle.tcel_rename.specs.Sets.{by_list};
ghost use Rattle.tcel_rename.specs.Splits.{AreSets};
ghost use Rattle.tcel_rename.specs.Numbers.{AreNumbers, inside_numbers, starts_of, temporaries, temporary, truth};

use crate::sets::Sets;
use sqlite_items::Items;
use std::alloc::Global;
use tcel_core::{CoreTask, ItemSet, Keep, Row, Var, VarKind};
use tcel_num::NoMemory;

/// The numbers of a task's variables in its parts: what kept items name in place of its own, where the values that are
/// saved behind each item begin, and the truths of tests; and all variables, the task's own first.
#[derive(Debug, Drop)]
pub(crate) struct Numbers {
    pub(crate) inside: Items<u32>,
    pub(crate) starts: Items<u32>,
    pub(crate) truths: Items<u32>,
    pub(crate) vars: Items<Var>,
}

/// The numbers by the sets of a task.
pub(crate) fn numbers_of(
    alloc: Global,
    task: &CoreTask,
    kept: &ItemSet,
    sets: &Sets,
) -> Result<Numbers, NoMemory>
    requires sound { IsSoundTask (plain_task task.now) }
    requires sets { AreSets (by_list task.now.vars (plain_body task.now.body) kept.now.list) sets.now }
    requires items { length sets.now.lives ≡ length (item_numbers (plain_body task.now.body)) }
    ensures { IfOk result (λ numbers. AreNumbers (by_list task.now.vars (plain_body task.now.body) kept.now.list) numbers) }
{
    let _ = kept;
    let own = task.vars.as_slice();
    let inside = inside_numbers(alloc, own.len() as u32, &sets.third)?;
    let mut vars = Items::from_slice(alloc, own)?;
    add_temporaries(own, &sets.third, &mut vars)?;
    let starts = add_saved(alloc, own, sets.lives.as_slice(), &mut vars)?;
    let truths = add_truths(alloc, sets.splits.as_slice(), &mut vars)?;
    Ok(Numbers {
        inside,
        starts,
        truths,
        vars,
    })
}

/// The numbers that kept items name in place of the variables: those that have copies go by the copies, which stand
/// behind all variables in order.
pub(crate) fn inside_numbers(alloc: Global, count: u32, third: &Row) -> Result<Items<u32>, NoMemory>
    requires { count ≤ 256 }
    ensures { IfOk result (λ numbers. numbers ≡ inside_numbers (stands_in third.now) count count) }
{
    let mut numbers = Items::new(alloc);
    let mut copies: u32 = 0;
    for v in 0..count {
        let copied = third.has(v);
        numbers.push(chosen(copied, count + copies, v))?;
        copies += chosen(copied, 1, 0);
    }
    Ok(numbers)
}

/// Adds a variable of the same kind for each of a row.
pub(crate) fn add_temporaries(own: &[Var], row: &Row, vars: &mut Items<Var>) -> Result<(), NoMemory>
    requires { length own.now ≤ 256 }
    ensures { OnOk result (vars.new ≡ vars.old ++ temporaries own.now (stands_in row.now)) }
{
    for i in 0..own.len() {
        push_where(row.has(i as u32), own[i].kind, vars)?;
    }
    Ok(())
}

/// Adds a variable for each value that is saved, and tells where those of each item begin.
pub(crate) fn add_saved(
    alloc: Global,
    own: &[Var],
    lives: &[Row],
    vars: &mut Items<Var>,
) -> Result<Items<u32>, NoMemory>
    requires { length own.now ≤ 256 }
    ensures vars { OnOk result (vars.new ≡ vars.old ++ flat_map (λ n. temporaries own.now (stands_at lives.now n)) (numbers_from 0 (length lives.now))) }
    ensures starts { IfOk result (λ starts. starts ≡ starts_of (length vars.old) (λ n. temporaries own.now (stands_at lives.now n)) (length lives.now)) }
{
    let mut starts = Items::new(alloc);
    for n in 0..lives.len() {
        starts.push(next_number(vars)?)?;
        add_temporaries(own, &lives[n], vars)?;
    }
    Ok(starts)
}

/// Adds a variable for the truth of each test that is kept, and tells its number.
pub(crate) fn add_truths(
    alloc: Global,
    splits: &[bool],
    vars: &mut Items<Var>,
) -> Result<Items<u32>, NoMemory>
    ensures vars { OnOk result (vars.new ≡ vars.old ++ flat_map (λ n. truth (slice_index_or splits.now n false)) (numbers_from 0 (length splits.now))) }
    ensures starts { IfOk result (λ starts. starts ≡ starts_of (length vars.old) (λ n. truth (slice_index_or splits.now n false)) (length splits.now)) }
{
    let mut starts = Items::new(alloc);
    for n in 0..splits.len() {
        starts.push(next_number(vars)?)?;
        push_where(splits[n], VarKind::Bool, vars)?;
    }
    Ok(starts)
}

/// The number of the next variable. Where it has none of 32 bits, there is no room for the variables either.
pub(crate) fn next_number(vars: &Items<Var>) -> Result<u32, NoMemory>
    ensures number { IfOk result (λ n. n ≡ length vars.now) }
    ensures fits { IfOk result (λ n. n < 2 ^ 32) }
{
    match u32::try_from(vars.len()) {
        Ok(n) => Ok(n),
        Err(_) => Err(NoMemory),
    }
}

/// One of two numbers.
fn chosen(first: bool, a: u32, b: u32) -> u32
    ensures { result ≡ (if first then a else b) }
{
    if first { a } else { b }
}

/// Adds a variable of this kind, without a name, where that is so.
fn push_where(so: bool, kind: VarKind, vars: &mut Items<Var>) -> Result<(), NoMemory>
    ensures { OnOk result (vars.new ≡ vars.old ++ (if so then temporary kind ∷ [] else [])) }
{
    if so {
        let added = Var {
            name: None,
            kind,
            keep: Keep::Temp,
            first: 0,
        };
        vars.push(added)?;
    }
    Ok(())
}
