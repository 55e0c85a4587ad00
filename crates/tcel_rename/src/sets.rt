ghost use Rattle.std.specs.Prelude.{◌≡◌, ◌<◌, ◌≤◌, ◌==◌, ◌&&◌, ◌||◌, ℕ, IfOk, length};
ghost use Rattle.tcel_core.specs.Frames.{is_state};
ghost use Rattle.tcel_core.specs.Kinds.{is_state_variable};
ghost use Rattle.tcel_core.specs.Numbering.{item_numbers};
ghost use Rattle.tcel_core.specs.Plain.{plain_body, plain_task};
ghost use Rattle.tcel_core.specs.Rows.{stands_in};
ghost use Rattle.tcel_core.specs.Sound.{IsSoundTask};
ghost use Rattle.tcel_flow.specs.Shape.{IsRow};
ghost use Rattle.tcel_rename.specs.Sets.{by_list};
ghost use Rattle.tcel_rename.specs.Splits.{AreSets};

use crate::kinds::{Found, common, find_in_body};
use crate::live::live_in_body;
use crate::splits::split_body;
use sqlite_items::Items;
use std::alloc::Global;
use tcel_core::{CoreTask, ItemSet, Keep, Row, Var};
use tcel_num::NoMemory;

/// What decides over the two parts of a task: the variables of kind 3, which of them are fetched, the variables for which
/// each item is live, and which ifs stand in both parts.
#[derive(Debug, Drop)]
pub(crate) struct Sets {
    pub(crate) third: Row,
    pub(crate) fetched: Row,
    pub(crate) lives: Items<Row>,
    pub(crate) splits: Items<bool>,
}

/// No task has more nodes, and so none has more ifs.
const NODES: usize = 4000;

/// The sets of a task and its kept items, each by one walk through the body.
pub(crate) fn sets_of(alloc: Global, task: &CoreTask, kept: &ItemSet) -> Result<Sets, NoMemory>
    requires sound { IsSoundTask (plain_task task.now) }
    requires items { length kept.now.list ≡ length (item_numbers (plain_body task.now.body)) }
    ensures sets { IfOk result (λ sets. AreSets (by_list task.now.vars (plain_body task.now.body) kept.now.list) sets) }
    ensures items { IfOk result (λ sets. length sets.lives ≡ length (item_numbers (plain_body task.now.body))) }
{
    let mut found = Found {
        fetched: Row::empty(),
        outside: Row::empty(),
        inside: Row::empty(),
        late: Row::empty(),
    };
    find_in_body(kept, &task.body, &mut found);
    let mut read_or_written = found.late;
    read_or_written.add(&found.outside);
    let third = common(&read_or_written, &found.inside);
    let fetched = common(&third, &found.fetched);
    let mut wanted = states(task.vars.as_slice());
    let mut lives = Items::from_vec(vec![in alloc; Row::empty(); kept.list.len()]?);
    live_in_body(kept, &third, &task.body, &mut wanted, &mut lives);
    let mut splits = Items::from_vec(vec![in alloc; false; NODES]?);
    split_body(kept, lives.as_slice(), &task.body, &mut splits);
    Ok(Sets {
        third,
        fetched,
        lives,
        splits,
    })
}

/// The variables that are kept from frame to frame.
fn states(vars: &[Var]) -> Row
    requires { length vars.now ≤ 256 }
    ensures { IsRow result (is_state_variable vars.now) }
{
    let mut row = Row::empty();
    for i in 0..vars.len() {
        insert_where(&mut row, i as u32, is_state(&vars[i]));
    }
    row
}

fn is_state(var: &Var) -> bool
    ensures { result ≡ is_state var.now.keep }
{
    match var.keep {
        Keep::State => true,
        Keep::Local | Keep::Temp => false,
    }
}

/// Adds a variable where this is so.
fn insert_where(row: &mut Row, var: u32, so: bool)
    ensures { (v : ℕ) → v < 256 → stands_in row.new v ≡ (stands_in row.old v || (so && (var == v))) }
{
    if so {
        row.insert(var);
    }
}
