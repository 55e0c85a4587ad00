ghost use Rattle.std.specs.Prelude.{◌≡◌, [], ◌∷◌, IfOk, OnOk, flat_map};
ghost use Rattle.tcel_show.specs.Canonical.{back_tokens, decl_tokens, every_tokens, first_tokens, first_truth_tokens, front_tokens, keeper, task_tokens};
ghost use Rattle.tcel_show.specs.Puts.{Puts};
ghost use Rattle.tcel_show.specs.Text.{canonical_text};
ghost use Rattle.tcel_tree.specs.Plain.{plain_program, plain_task};

use crate::writer::Writer;
use std::alloc::Global;
use tcel_num::NoMemory;
use tcel_token::{Keyword, Sign};
use tcel_tree::{Decl, DeclKind, Program, Task};

/// The canonical text of a program (docs/language.md).
pub fn show(alloc: Global, program: &Program) -> Result<Vec<u8>, NoMemory>
    ensures { IfOk result (λ text. text.items ≡ canonical_text (plain_program program.now)) }
{
    let mut writer = Writer::new(alloc);
    writer.tasks(program.tasks.as_slice())?;
    writer.finish()
}

impl Writer {
    fn tasks(&mut self, tasks: &[Task]) -> Result<(), NoMemory>
        ensures { OnOk result (Puts self.old self.new (flat_map (λ t. task_tokens (plain_task t)) tasks.now)) }
    {
        for task in tasks {
            self.task(task)?;
        }
        Ok(())
    }

    fn task(&mut self, task: &Task) -> Result<(), NoMemory>
        ensures { OnOk result (Puts self.old self.new (task_tokens (plain_task task.now))) }
    {
        self.word(Keyword::Task)?;
        self.name(&task.name)?;
        self.word(Keyword::Priority)?;
        self.placed(&task.priority)?;
        self.sign(Sign::LeftBrace)?;
        self.decls(task.decls.as_slice())?;
        self.every(task)?;
        self.sign(Sign::RightBrace)
    }

    fn every(&mut self, task: &Task) -> Result<(), NoMemory>
        ensures { OnOk result (Puts self.old self.new (every_tokens (plain_task task.now))) }
    {
        self.word(Keyword::Every)?;
        self.placed(&task.period)?;
        self.clause(Keyword::Finish, Keyword::Within, task.finish)?;
        self.braced(task.body.as_slice())
    }

    fn decls(&mut self, decls: &[Decl]) -> Result<(), NoMemory>
        ensures { OnOk result (Puts self.old self.new (flat_map decl_tokens decls.now)) }
    {
        for decl in decls {
            self.decl(decl)?;
        }
        Ok(())
    }

    fn decl(&mut self, decl: &Decl) -> Result<(), NoMemory>
        ensures { OnOk result (Puts self.old self.new (decl_tokens decl.now)) }
    {
        self.front(&decl.kind)?;
        self.name(&decl.name)?;
        self.back(&decl.kind)?;
        self.sign(Sign::Semicolon)
    }

    /// The words in front of a declared name.
    fn front(&mut self, kind: &DeclKind) -> Result<(), NoMemory>
        ensures { OnOk result (Puts self.old self.new (front_tokens kind.now)) }
    {
        match kind {
            DeclKind::Input => self.word(Keyword::Input),
            DeclKind::Output => self.word(Keyword::Output),
            DeclKind::Int { state, .. } | DeclKind::Array { state, .. } => {
                self.keeper(*state)?;
                self.word(Keyword::Int)
            }
            DeclKind::Bool { state, .. } => {
                self.keeper(*state)?;
                self.word(Keyword::Bool)
            }
        }
    }

    fn keeper(&mut self, state: bool) -> Result<(), NoMemory>
        ensures { OnOk result (Puts self.old self.new (keeper state ∷ [])) }
    {
        self.word(if state {
            Keyword::State
        } else {
            Keyword::Local
        })
    }

    /// What stands behind a declared name.
    fn back(&mut self, kind: &DeclKind) -> Result<(), NoMemory>
        ensures { OnOk result (Puts self.old self.new (back_tokens kind.now)) }
    {
        match kind {
            DeclKind::Input | DeclKind::Output => Ok(()),
            DeclKind::Int { first, .. } => self.first(*first),
            DeclKind::Bool { first, .. } => self.first_truth(*first),
            DeclKind::Array { length, .. } => {
                self.sign(Sign::LeftSquare)?;
                self.placed(length)?;
                self.sign(Sign::RightSquare)
            }
        }
    }

    fn first(&mut self, first: Option<i64>) -> Result<(), NoMemory>
        ensures { OnOk result (Puts self.old self.new (first_tokens first)) }
    {
        if let Some(value) = first {
            self.sign(Sign::Is)?;
            if value < 0 {
                self.sign(Sign::Minus)?;
            }
            self.magnitude(value.unsigned_abs())?;
        }
        Ok(())
    }

    fn first_truth(&mut self, first: Option<bool>) -> Result<(), NoMemory>
        ensures { OnOk result (Puts self.old self.new (first_truth_tokens first)) }
    {
        if let Some(value) = first {
            self.sign(Sign::Is)?;
            self.truth(value)?;
        }
        Ok(())
    }
}
