ghost use Rattle.std.specs.Prelude.{◌≡◌, ◌<◌, ◌^◌, ◌++◌, [], if◌then◌else◌, IfOk, length, pos, replicate, slice_index_or};
ghost use Rattle.tcel_core.specs.Cells.{all_words};
ghost use Rattle.tcel_core.specs.Frames.{declared_state, first_words, is_state, start_cells};

use crate::set::CoreTask;
use crate::sizes::{all_words, state_words};
use crate::var::{Keep, Var, VarKind};
use std::alloc::Global;
use std::marker::Model;
use tcel_num::NoMemory;

/// The words of a task's variables, in the order of the variables.
#[derive(Debug, Drop)]
pub struct Cells {
    pub(crate) words: Vec<i64>,
}

impl Model for Cells {
    ghost use Rattle.std.specs.Prelude.{List, ℤ};

    ghost Value = { List ℤ };

    ghost view = { λ c. c.words.items };
}

impl Cells {
    /// State 0: the declared words of the states, and 0 for all other variables.
    pub fn start(alloc: Global, task: &CoreTask) -> Result<Cells, NoMemory>
        requires { all_words task.now.vars < 2 ^ 63 }
        ensures state { IfOk result (λ cells. cells ≡ start_cells task.now.vars (declared_state task.now.vars)) }
        ensures words { IfOk result (λ cells. length cells ≡ all_words task.now.vars) }
    {
        let words = first_words_of(alloc, task.vars.as_slice())?;
        Ok(Cells { words })
    }

    /// The word at a place, from 0.
    pub fn word(&self, place: usize) -> i64
        requires { place < length self.now }
        ensures { result ≡ slice_index_or self.now place (pos 0) }
    {
        self.words[place]
    }
}

/// The declared words of the states, and 0 for all other variables.
fn first_words_of(alloc: Global, vars: &[Var]) -> Result<Vec<i64>, NoMemory>
    requires { all_words vars.now < 2 ^ 63 }
    ensures { IfOk result (λ words. words.items ≡ start_cells vars.now (declared_state vars.now)) }
{
    let mut words = Vec::new(alloc);
    for var in vars {
        push_first(var, &mut words)?;
    }
    push_zeros(all_words(vars) - state_words(vars), &mut words)?;
    Ok(words)
}

/// Appends the declared words of a state, and nothing for any other variable.
fn push_first(var: &Var, words: &mut Vec<i64>) -> Result<(), NoMemory>
    ensures { IfOk result (λ _. words.new.items ≡ words.old.items
        ++ (if is_state var.now.keep then first_words var.now.kind var.now.first else [])) }
{
    match (var.keep, var.kind) {
        (Keep::Local | Keep::Temp, _) => {}
        (Keep::State, VarKind::Int | VarKind::Bool) => words.push(var.first)?,
        (Keep::State, VarKind::Array(length)) => push_zeros(length as usize, words)?,
    }
    Ok(())
}

fn push_zeros(count: usize, words: &mut Vec<i64>) -> Result<(), NoMemory>
    ensures { IfOk result (λ _. words.new.items ≡ words.old.items ++ replicate count (pos 0)) }
{
    for _ in 0..count {
        words.push(0)?;
    }
    Ok(())
}
