ghost use Rattle.std.specs.Prelude.{OnOk};
ghost use Rattle.tcel_show.specs.Canonical.{clause_tokens, for_head, limit_tokens, stmt_tokens, window_tokens};
ghost use Rattle.tcel_show.specs.Puts.{Puts};
ghost use Rattle.tcel_tree.specs.Language.{assign, assign_at, receive, send};
ghost use Rattle.tcel_tree.specs.Plain.{plain_expr};
ghost use Rattle.tcel_tree.specs.Unplaced.{nowhere};

use crate::writer::Writer;
use tcel_num::{Name, NoMemory};
use tcel_token::{Keyword, Sign};
use tcel_tree::{Expr, Placed, Window};

#[tactic(auto, using(crate::proofs::Putting::putting))]
impl Writer {
    pub fn assign(&mut self, name: &Name, value: &Expr) -> Result<(), NoMemory>
        ensures { OnOk result (Puts self.old self.new (stmt_tokens (assign nowhere name.now (plain_expr value.now)))) }
    {
        self.name(name)?;
        self.sign(Sign::Becomes)?;
        self.whole(value)?;
        self.sign(Sign::Semicolon)
    }

    pub fn assign_at(&mut self, name: &Name, index: &Expr, value: &Expr) -> Result<(), NoMemory>
        ensures { OnOk result (Puts self.old self.new (stmt_tokens (assign_at nowhere name.now (plain_expr index.now) (plain_expr value.now)))) }
    {
        self.name(name)?;
        self.sign(Sign::LeftSquare)?;
        self.whole(index)?;
        self.sign(Sign::RightSquare)?;
        self.sign(Sign::Becomes)?;
        self.whole(value)?;
        self.sign(Sign::Semicolon)
    }

    pub fn receive(&mut self, name: &Name, port: &Name) -> Result<(), NoMemory>
        ensures { OnOk result (Puts self.old self.new (stmt_tokens (receive nowhere name.now nowhere port.now nowhere))) }
    {
        self.word(Keyword::Receive)?;
        self.name(name)?;
        self.word(Keyword::From)?;
        self.name(port)?;
        self.sign(Sign::Semicolon)
    }

    pub fn send(&mut self, value: &Expr, port: &Name) -> Result<(), NoMemory>
        ensures { OnOk result (Puts self.old self.new (stmt_tokens (send nowhere (plain_expr value.now) port.now nowhere))) }
    {
        self.word(Keyword::Send)?;
        self.whole(value)?;
        self.word(Keyword::To)?;
        self.name(port)?;
        self.sign(Sign::Semicolon)
    }

    pub fn for_head(&mut self, name: &Name, turns: &Placed) -> Result<(), NoMemory>
        ensures { OnOk result (Puts self.old self.new (for_head name.now turns.now)) }
    {
        self.word(Keyword::For)?;
        self.name(name)?;
        self.sign(Sign::Less)?;
        self.placed(turns)
    }

    pub fn limit(&mut self, turns: &Placed) -> Result<(), NoMemory>
        ensures { OnOk result (Puts self.old self.new (limit_tokens turns.now)) }
    {
        self.word(Keyword::Limit)?;
        self.placed(turns)
    }

    /// A clause of two words and a number, where it was written.
    pub fn clause(
        &mut self,
        opening: Keyword,
        closing: Keyword,
        number: Option<Placed>,
    ) -> Result<(), NoMemory>
        ensures { OnOk result (Puts self.old self.new (clause_tokens opening closing number)) }
    {
        if let Some(number) = number {
            self.word(opening)?;
            self.word(closing)?;
            self.number(number.value)?;
        }
        Ok(())
    }

    pub fn window(&mut self, window: &Window) -> Result<(), NoMemory>
        ensures { OnOk result (Puts self.old self.new (window_tokens window.now)) }
    {
        self.clause(Keyword::Start, Keyword::After, window.after)?;
        self.clause(Keyword::Start, Keyword::Before, window.before)?;
        self.clause(Keyword::Finish, Keyword::Within, window.within)
    }
}
