ghost use Rattle.std.specs.Prelude.{◌≡◌, [], ◌∷◌, true, IfOk, OnOk};
ghost use Rattle.tcel_grammar.specs.Machine.{is_word, this_word, this_sign, any_name, any_number, task_block, more_decls, program, accepted};
ghost use Rattle.tcel_grammar.specs.Programs.{IsEvery, IsTask, IsProgram};
ghost use Rattle.tcel_token.specs.declared.keyword.Keyword.{Keyword};
ghost use Rattle.tcel_token.specs.declared.sign.Sign.{Sign};
ghost use Rattle.tcel_tree.specs.Plain.{plain_task, plain_program, plain_block};
ghost use Rattle.tcel_parse.specs.Reading.{left, sees, reach, gives, Gives, GoesOn};

use crate::fail::Stop;
use crate::parser::Parser;
use sqlite_items::Items;
use tcel_token::{Keyword, Sign};
use tcel_tree::{Placed, Program, Stmt, Task};

/// What a task does: its period, its deadline where it was written, and its statements.
#[derive(Drop)]
struct Every {
    period: Placed,
    finish: Option<Placed>,
    body: Items<Stmt>,
}

impl Parser<'_> {
    /// The tasks of a program, up to the end.
    pub(crate) fn program(&mut self) -> Result<Program, Stop>
        ensures tree { IfOk result (λ p. IsProgram (left self.old) (plain_program p)) }
        ensures run { reach program self.old ≡ gives result (reach program self.old) accepted (left self.new) }
    {
        let task = self.task()?;
        let mut tasks = Items::new(self.alloc);
        tasks.push(task)?;
        'tasks: while self.sees_word(Keyword::Task) {
            let other = self.task()?;
            tasks.push(other)?;
        }
        if !self.is_done() {
            return Err(Stop::Syntax);
        }
        Ok(Program { tasks })
    }

    fn task(&mut self) -> Result<Task, Stop>
        ensures tree { IfOk result (λ t. IsTask (left self.old) (plain_task t) (left self.new)) }
        ensures run { Gives result self.old self.new
            (this_word Keyword.Task ∷ any_name ∷ this_word Keyword.Priority ∷ any_number ∷ task_block ∷ []) [] }
        ensures onward { OnOk result (GoesOn self.old self.new) }
    {
        self.expect_word(Keyword::Task)?;
        let name = self.expect_name()?;
        self.expect_word(Keyword::Priority)?;
        let priority = self.expect_number()?;
        if !self.sees_sign(Sign::LeftBrace) {
            return Err(Stop::Syntax);
        }
        self.take_sign(Sign::LeftBrace)?;
        let decls = self.decls()?;
        let every = self.every()?;
        self.expect_sign(Sign::RightBrace)?;
        let Every {
            period,
            finish,
            body,
        } = every;
        Ok(Task {
            name: name.name,
            at: name.at,
            priority,
            decls,
            period,
            finish,
            body,
        })
    }

    /// `every`, which stands here, with its block.
    fn every(&mut self) -> Result<Every, Stop>
        requires { sees (is_word Keyword.Every) (left self.old) ≡ true }
        ensures tree { IfOk result (λ e. IsEvery (left self.old) e.period e.finish (plain_block e.body) (left self.new)) }
        ensures run { Gives result self.old self.new (more_decls ∷ []) (this_sign Sign.RightBrace ∷ []) }
        ensures onward { OnOk result (GoesOn self.old self.new) }
    {
        self.take_word(Keyword::Every)?;
        let period = self.expect_number()?;
        let finish = self.within()?;
        let body = self.block()?;
        Ok(Every {
            period,
            finish,
            body,
        })
    }
}
