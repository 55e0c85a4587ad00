ghost use Rattle.std.specs.Prelude.{◌≡◌, ◌≤◌, IfOk};
ghost use Rattle.tcel_core.specs.Cells.{all_words, place, width, words_of};
ghost use Rattle.tcel_gen.specs.Places.{starts_from};

use sqlite_items::Items;
use std::alloc::Global;
use std::marker::Model;
use tcel_core::{Var, VarKind};
use tcel_num::NoMemory;

/// Where the words of each variable begin. Contracts see it as the variables.
#[derive(Drop)]
pub(crate) struct Places<'a> {
    vars: &'a [Var],
    // of variable v at place v, and the number of all words behind the last one
    starts: Items<u32>,
}

impl<'a> Model for Places<'a> {
    ghost use Rattle.std.specs.Prelude.{List};
    ghost use Rattle.tcel_core.specs.declared.var.Var.{Var};

    ghost Value = { List Var };

    ghost use Rattle.tcel_gen.specs.Places.{variables_of, AreStarts};

    ghost view = { variables_of };

    ghost invariant = { AreStarts };
}

impl<'a> Places<'a> {
    pub(crate) fn new(alloc: Global, vars: &'a [Var]) -> Result<Places<'a>, NoMemory>
        requires few { all_words vars.now ≤ 65536 }
        ensures { IfOk result (λ places. places ≡ vars.now) }
    {
        let starts = starts_of(alloc, vars)?;
        Ok(Places { vars, starts })
    }

    /// Where the words of a variable begin; those of a number of no variable behind all words.
    pub(crate) fn place(&self, var: u32) -> u32
        ensures { result ≡ place self.now var }
    {
        let var = (var as usize).min(self.vars.len());
        self.starts.as_slice()[var]
    }

    /// How many words a variable has; a number of no variable has none.
    pub(crate) fn width(&self, var: u32) -> u32
        ensures { result ≡ width self.now var }
    {
        let var = var as usize;
        if var < self.vars.len() {
            words_of(self.vars[var].kind)
        } else {
            0
        }
    }

    /// How many words the variables have together.
    pub(crate) fn words(&self) -> u32
        ensures words { result ≡ all_words self.now }
        ensures few { result ≤ 65536 }
    {
        self.starts.as_slice()[self.vars.len()]
    }
}

fn starts_of(alloc: Global, vars: &[Var]) -> Result<Items<u32>, NoMemory>
    requires few { all_words vars.now ≤ 65536 }
    ensures { IfOk result (λ starts. starts ≡ starts_from 0 vars.now) }
{
    let mut starts = Items::new(alloc);
    let mut words = 0;
    for var in vars {
        starts.push(words)?;
        words += words_of(var.kind);
    }
    starts.push(words)?;
    Ok(starts)
}

pub(crate) fn words_of(kind: VarKind) -> u32
    ensures { result ≡ words_of kind }
{
    match kind {
        VarKind::Int | VarKind::Bool => 1,
        VarKind::Array(length) => length,
    }
}
