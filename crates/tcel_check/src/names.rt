ghost use Rattle.std.specs.Prelude.{◌≡◌, ℕ, List, Some, None, IfOk, OnOk, is_some, not};
ghost use Rattle.tcel_check.specs.Known.{kind_in, known_behind};
ghost use Rattle.tcel_check.specs.Spelled.{IsSpelledDecl};

use indexmap::IndexMap;
use std::alloc::Global;
use tcel_num::{Name, NoMemory};
use tcel_tree::{Decl, DeclKind};

/// The names that a task declares, with what their first declarations say.
#[derive(Drop)]
pub struct Names {
    kinds: IndexMap<Name, DeclKind>,
}

impl Names {
    /// No names.
    pub fn new(alloc: Global) -> Names
        ensures { (name : List ℕ) → kind_in result name ≡ None }
    {
        Names {
            kinds: IndexMap::new(alloc),
        }
    }

    /// What the first declaration of a name says, where there is one.
    pub fn kind(&self, name: &Name) -> Option<DeclKind>
        ensures { result ≡ kind_in self.now name.now }
    {
        self.kinds.get(name).copied()
    }

    /// Adds a declaration; whether its name is new.
    pub fn declare(&mut self, decl: &Decl) -> Result<bool, NoMemory>
        ensures new { IfOk result (λ new. new ≡ not (is_some (kind_in self.old decl.now.name))) }
        ensures known { OnOk result ((name : List ℕ) → kind_in self.new name ≡ known_behind (kind_in self.old name) decl.now name) }
        ensures spelled { IsSpelledDecl decl.now }
    {
        is_spelled(decl);
        match self.kind(&decl.name) {
            Some(_) => Ok(false),
            None => {
                self.kinds.insert(decl.name, decl.kind)?;
                Ok(true)
            }
        }
    }
}

/// What its type knows of a declaration: its name is a name, and its first value fits 64 bits.
fn is_spelled(decl: &Decl)
    ensures { IsSpelledDecl decl.now }
{
    let _bytes = decl.name.bytes();
    if let DeclKind::Int {
        first: Some(first),
        ..
    } = &decl.kind
    {
        let _first = *first;
    }
}
