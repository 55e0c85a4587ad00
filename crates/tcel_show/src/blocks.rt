ghost use Rattle.std.specs.Prelude.{OnOk};
ghost use Rattle.tcel_show.specs.Canonical.{block_tokens, braced, stmt_tokens};
ghost use Rattle.tcel_show.specs.Puts.{Puts};
ghost use Rattle.tcel_token.specs.declared.keyword.Keyword.{Keyword};
ghost use Rattle.tcel_token.specs.declared.sign.Sign.{Sign};
ghost use Rattle.tcel_tree.specs.Plain.{plain_block, plain_stmt};

use crate::writer::Writer;
use tcel_num::NoMemory;
use tcel_token::{Keyword, Sign};
use tcel_tree::{Stmt, StmtKind};

impl Writer {
    /// A block, in braces.
    #[cycle(blocks)]
    pub fn braced(&mut self, stmts: &[Stmt]) -> Result<(), NoMemory>
        ensures { OnOk result (Puts self.old self.new (braced (block_tokens (plain_block stmts.now)))) }
    {
        self.sign(Sign::LeftBrace)?;
        for stmt in stmts {
            self.stmt(stmt)?;
        }
        self.sign(Sign::RightBrace)
    }

    #[cycle(blocks)]
    fn stmt(&mut self, stmt: &Stmt) -> Result<(), NoMemory>
        ensures { OnOk result (Puts self.old self.new (stmt_tokens (plain_stmt stmt.now))) }
    {
        match &stmt.what {
            StmtKind::Assign { name, value } => self.assign(name, value),
            StmtKind::AssignAt { name, index, value } => self.assign_at(name, index, value),
            StmtKind::Receive { name, port, .. } => self.receive(name, port),
            StmtKind::Send { value, port, .. } => self.send(value, port),
            StmtKind::If { test, yes, no } => {
                self.word(Keyword::If)?;
                self.whole(test)?;
                self.braced(yes.as_slice())?;
                match no {
                    None => Ok(()),
                    Some(other) => {
                        self.word(Keyword::Else)?;
                        self.braced(other.as_slice())
                    }
                }
            }
            StmtKind::For {
                name,
                turns,
                body,
                ..
            } => {
                self.for_head(name, turns)?;
                self.braced(body.as_slice())
            }
            StmtKind::While { test, turns, body } => {
                self.word(Keyword::While)?;
                self.whole(test)?;
                self.limit(turns)?;
                self.braced(body.as_slice())
            }
            StmtKind::Do { window, body } => {
                self.word(Keyword::Do)?;
                self.window(window)?;
                self.braced(body.as_slice())
            }
        }
    }
}
