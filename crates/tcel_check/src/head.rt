ghost use Rattle.std.specs.Prelude.{◌≡◌, ◌≤◌, ◌<◌, ℕ, List, ◌∷◌, Option, OnOk, IfOk, flat_map, map};
ghost use Rattle.std.specs.List.{AllByRecursion};
ghost use Rattle.tcel_check.specs.Known.{kind_in};
ghost use Rattle.tcel_check.specs.Least.{Adds, AddsWords};
ghost use Rattle.tcel_check.specs.Rows.{at_decl, many_names, past, repeats, same_decl, twice_mark, words_of};
ghost use Rattle.tcel_check.specs.Sights.{head_sights, length_sights};
ghost use Rattle.tcel_check.specs.Spelled.{IsSpelledDecl};
ghost use Rattle.tcel_check.specs.Types.{kind_of};
ghost use Rattle.tcel_check.specs.declared.mark.Mark.{Mark};
ghost use Rattle.tcel_tree.specs.declared.task.Decl.{Decl};
ghost use Rattle.tcel_tree.specs.Plain.{plain_task};
ghost use Rattle.tcel_check.specs.Walks.{Saw};
ghost use Rattle.tcel_check.specs.declared.fail.CheckKind.TheVariants.{Twice};
ghost use Rattle.tcel_check.specs.declared.fail.LimitKind.TheVariants.{Variables, Words};
ghost use Rattle.tcel_tree.specs.declared.task.DeclKind.{DeclKind};

use crate::fail::{CheckKind, LimitKind};
use crate::least::keep;
use crate::mark::{Mark, Row};
use crate::names::Names;
use crate::walk::{MOST_COUNT, MOST_TIME, Walk};
use sqlite_items::at as element;
use std::alloc::Global;
use tcel_num::NoMemory;
use tcel_tree::{Decl, DeclKind, Task};

const MOST_NAMES: usize = 256;

const MOST_WORDS: u32 = 4096;

const MOST_PRIORITY: i64 = 1000;

/// The 257th declared name.
pub fn many_names(decls: &[Decl], least: &mut Option<Mark>)
    ensures { Adds least.old least.new (past Variables 256 (map at_decl decls.now)) }
{
    if let Some(decl) = element(decls, MOST_NAMES).copied() {
        keep(least, true, Row::Limit(LimitKind::Variables), decl.at);
    }
}

/// The words of a declaration: an array has none where its length is out of range.
pub fn words_of(kind: DeclKind) -> u32
    ensures words { result ≡ words_of kind }
    ensures most { result ≤ 4096 }
{
    match kind {
        DeclKind::Input | DeclKind::Output => 0,
        DeclKind::Int { .. } | DeclKind::Bool { .. } => 1,
        DeclKind::Array { length, .. } => {
            if length.value < 1 || length.value > 4096 {
                0
            } else {
                length.value as u32
            }
        }
    }
}

/// The name with which the words pass 4,096.
pub fn many_words(decls: &[Decl], least: &mut Option<Mark>)
    ensures { AddsWords 0 decls.now least.old least.new }
{
    let mut words = 0;
    for decl in decls {
        words = words_behind(words, decl, least);
    }
}

/// The words with one more declaration; once they are past the limit they stay.
fn words_behind(words: u32, decl: &Decl, least: &mut Option<Mark>) -> u32
    requires { words ≤ 8192 }
    ensures most { result ≤ 8192 }
    ensures step { (end : Option Mark) (left : List Decl) → AddsWords result left least.new end → AddsWords words (decl.now ∷ left) least.old end }
{
    if words > MOST_WORDS {
        return words;
    }
    let more = words + words_of(decl.kind);
    keep(
        least,
        more > MOST_WORDS,
        Row::Limit(LimitKind::Words),
        decl.at,
    );
    more
}

/// The declared names, with what their first declarations say, and each that is declared again.
pub fn declared(alloc: Global, decls: &[Decl], least: &mut Option<Mark>) -> Result<Names, NoMemory>
    ensures known { IfOk result (λ names. (name : List ℕ) → kind_in names name ≡ kind_of decls.now name) }
    ensures spelled { OnOk result (AllByRecursion IsSpelledDecl decls.now) }
    ensures twice { OnOk result (Adds least.old least.new (map twice_mark (repeats same_decl decls.now))) }
{
    let mut names = Names::new(alloc);
    for decl in decls {
        let new = names.declare(decl)?;
        keep(least, !new, Row::Fault(CheckKind::Twice), decl.at);
    }
    Ok(names)
}

impl Walk {
    /// Before a body: no sight yet, and this first mark.
    pub fn new(least: Option<Mark>) -> Walk
        ensures { result ≡ record { nodes = 4001; windows = 32; least = least } }
    {
        Walk {
            nodes: 4001,
            windows: 32,
            least,
        }
    }

    /// What stands in front of a task's body.
    pub fn head(&mut self, task: &Task)
        ensures { (kind : List ℕ → Option DeclKind) → Saw kind self.old self.new (head_sights (plain_task task.now)) }
    {
        self.bound(&task.priority, MOST_PRIORITY);
        self.lengths(task.decls.as_slice());
        self.bound(&task.period, MOST_TIME);
        self.clause(task.finish);
    }

    fn lengths(&mut self, decls: &[Decl])
        ensures { (kind : List ℕ → Option DeclKind) → Saw kind self.old self.new (flat_map (λ (d : Decl). length_sights d.kind) decls.now) }
    {
        for decl in decls {
            self.length(decl);
        }
    }

    fn length(&mut self, decl: &Decl)
        ensures { (kind : List ℕ → Option DeclKind) → Saw kind self.old self.new (length_sights decl.now.kind) }
    {
        if let DeclKind::Array { length, .. } = &decl.kind {
            self.bound(length, MOST_COUNT);
        }
    }
}
