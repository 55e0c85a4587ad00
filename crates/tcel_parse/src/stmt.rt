ghost use Rattle.std.specs.Prelude.{◌≡◌, [], ◌∷◌, true, false, IfOk, OnOk};
ghost use Rattle.tcel_grammar.specs.Machine.{is_word, is_sign, is_name, more_stmts, one_block};
ghost use Rattle.tcel_grammar.specs.Statements.{IsBlock, IsStmt, IsBranch};
ghost use Rattle.tcel_token.specs.declared.keyword.Keyword.{Keyword};
ghost use Rattle.tcel_token.specs.declared.sign.Sign.{Sign};
ghost use Rattle.tcel_tree.specs.Plain.{plain_stmt, plain_block};
ghost use Rattle.tcel_parse.specs.Reading.{left, sees, plain_branch, Gives, GoesOn, GoesNotBack};

use crate::fail::Stop;
use crate::nodes::{
    assign_at_node, assign_node, choice_node, for_node, receive_node, send_node, timed_node,
    while_node,
};
use crate::parser::Parser;
use sqlite_items::Items;
use tcel_token::{Keyword, Sign};
use tcel_tree::Stmt;

impl Parser<'_> {
    /// Statements in braces.
    #[cycle(stmt)]
    pub(crate) fn block(&mut self) -> Result<Items<Stmt>, Stop>
        ensures tree { IfOk result (λ b. IsBlock (left self.old) (plain_block b) (left self.new)) }
        ensures run { Gives result self.old self.new (one_block ∷ []) [] }
        ensures onward { OnOk result (GoesOn self.old self.new) }
    {
        if !self.sees_sign(Sign::LeftBrace) {
            return Err(Stop::Syntax);
        }
        self.take_sign(Sign::LeftBrace)?;
        let mut list = Items::new(self.alloc);
        'statements: while !self.sees_sign(Sign::RightBrace) {
            let stmt = self.statement()?;
            list.push(stmt)?;
        }
        self.take_sign(Sign::RightBrace)?;
        Ok(list)
    }

    /// A statement; no block ends here.
    #[cycle(stmt)]
    fn statement(&mut self) -> Result<Stmt, Stop>
        requires { sees (is_sign Sign.RightBrace) (left self.old) ≡ false }
        ensures tree { IfOk result (λ s. IsStmt (left self.old) (plain_stmt s) (left self.new)) }
        ensures run { Gives result self.old self.new (more_stmts false ∷ []) (more_stmts false ∷ []) }
        ensures onward { OnOk result (GoesOn self.old self.new) }
    {
        if self.sees_name() {
            self.assignment()
        } else if self.sees_word(Keyword::Receive) {
            self.receive()
        } else if self.sees_word(Keyword::Send) {
            self.send()
        } else if self.sees_word(Keyword::If) {
            self.choice()
        } else if self.sees_word(Keyword::For) {
            self.counted()
        } else if self.sees_word(Keyword::While) {
            self.repeated()
        } else if self.sees_word(Keyword::Do) {
            self.timed()
        } else {
            Err(Stop::Syntax)
        }
    }

    /// An assignment to the variable or array that is named here.
    fn assignment(&mut self) -> Result<Stmt, Stop>
        requires { sees is_name (left self.old) ≡ true }
        ensures tree { IfOk result (λ s. IsStmt (left self.old) (plain_stmt s) (left self.new)) }
        ensures run { Gives result self.old self.new (more_stmts false ∷ []) (more_stmts false ∷ []) }
        ensures onward { OnOk result (GoesOn self.old self.new) }
    {
        let target = self.take_name()?;
        if self.sees_sign(Sign::Becomes) {
            self.take_sign(Sign::Becomes)?;
            let value = self.expr()?;
            self.expect_sign(Sign::Semicolon)?;
            Ok(assign_node(target, value))
        } else if self.sees_sign(Sign::LeftSquare) {
            self.take_sign(Sign::LeftSquare)?;
            let index = self.expr()?;
            self.expect_sign(Sign::RightSquare)?;
            self.expect_sign(Sign::Becomes)?;
            let stored = self.expr()?;
            self.expect_sign(Sign::Semicolon)?;
            Ok(assign_at_node(target, index, stored))
        } else {
            Err(Stop::Syntax)
        }
    }

    /// `receive NAME from NAME;`
    fn receive(&mut self) -> Result<Stmt, Stop>
        requires { sees (is_word Keyword.Receive) (left self.old) ≡ true }
        ensures tree { IfOk result (λ s. IsStmt (left self.old) (plain_stmt s) (left self.new)) }
        ensures run { Gives result self.old self.new (more_stmts false ∷ []) (more_stmts false ∷ []) }
        ensures onward { OnOk result (GoesOn self.old self.new) }
    {
        let at = self.take_word(Keyword::Receive)?;
        let target = self.expect_name()?;
        self.expect_word(Keyword::From)?;
        let port = self.expect_name()?;
        self.expect_sign(Sign::Semicolon)?;
        Ok(receive_node(at, target, port))
    }

    /// `send expr to NAME;`
    fn send(&mut self) -> Result<Stmt, Stop>
        requires { sees (is_word Keyword.Send) (left self.old) ≡ true }
        ensures tree { IfOk result (λ s. IsStmt (left self.old) (plain_stmt s) (left self.new)) }
        ensures run { Gives result self.old self.new (more_stmts false ∷ []) (more_stmts false ∷ []) }
        ensures onward { OnOk result (GoesOn self.old self.new) }
    {
        let at = self.take_word(Keyword::Send)?;
        let value = self.expr()?;
        self.expect_word(Keyword::To)?;
        let port = self.expect_name()?;
        self.expect_sign(Sign::Semicolon)?;
        Ok(send_node(at, value, port))
    }

    /// `if expr block`, with an else block or without.
    #[cycle(stmt)]
    fn choice(&mut self) -> Result<Stmt, Stop>
        requires { sees (is_word Keyword.If) (left self.old) ≡ true }
        ensures tree { IfOk result (λ s. IsStmt (left self.old) (plain_stmt s) (left self.new)) }
        ensures run { Gives result self.old self.new (more_stmts false ∷ []) (more_stmts false ∷ []) }
        ensures onward { OnOk result (GoesOn self.old self.new) }
    {
        let at = self.take_word(Keyword::If)?;
        let test = self.expr()?;
        let yes = self.block()?;
        let no = self.branch()?;
        Ok(choice_node(at, test, yes, no))
    }

    /// An else block, or nothing.
    #[cycle(stmt)]
    fn branch(&mut self) -> Result<Option<Items<Stmt>>, Stop>
        ensures tree { IfOk result (λ o. IsBranch (left self.old) (plain_branch o) (left self.new)) }
        ensures run { Gives result self.old self.new (more_stmts true ∷ []) (more_stmts false ∷ []) }
        ensures onward { OnOk result (GoesNotBack self.old self.new) }
    {
        if !self.sees_word(Keyword::Else) {
            return Ok(None);
        }
        self.take_word(Keyword::Else)?;
        let body = self.block()?;
        Ok(Some(body))
    }

    /// `for NAME < NUMBER block`
    #[cycle(stmt)]
    fn counted(&mut self) -> Result<Stmt, Stop>
        requires { sees (is_word Keyword.For) (left self.old) ≡ true }
        ensures tree { IfOk result (λ s. IsStmt (left self.old) (plain_stmt s) (left self.new)) }
        ensures run { Gives result self.old self.new (more_stmts false ∷ []) (more_stmts false ∷ []) }
        ensures onward { OnOk result (GoesOn self.old self.new) }
    {
        let at = self.take_word(Keyword::For)?;
        let counter = self.expect_name()?;
        self.expect_sign(Sign::Less)?;
        let turns = self.expect_number()?;
        let body = self.block()?;
        Ok(for_node(at, counter, turns, body))
    }

    /// `while expr limit NUMBER block`
    #[cycle(stmt)]
    fn repeated(&mut self) -> Result<Stmt, Stop>
        requires { sees (is_word Keyword.While) (left self.old) ≡ true }
        ensures tree { IfOk result (λ s. IsStmt (left self.old) (plain_stmt s) (left self.new)) }
        ensures run { Gives result self.old self.new (more_stmts false ∷ []) (more_stmts false ∷ []) }
        ensures onward { OnOk result (GoesOn self.old self.new) }
    {
        let at = self.take_word(Keyword::While)?;
        let test = self.expr()?;
        self.expect_word(Keyword::Limit)?;
        let turns = self.expect_number()?;
        let body = self.block()?;
        Ok(while_node(at, test, turns, body))
    }

    /// `do window block`
    #[cycle(stmt)]
    fn timed(&mut self) -> Result<Stmt, Stop>
        requires { sees (is_word Keyword.Do) (left self.old) ≡ true }
        ensures tree { IfOk result (λ s. IsStmt (left self.old) (plain_stmt s) (left self.new)) }
        ensures run { Gives result self.old self.new (more_stmts false ∷ []) (more_stmts false ∷ []) }
        ensures onward { OnOk result (GoesOn self.old self.new) }
    {
        let at = self.take_word(Keyword::Do)?;
        let window = self.window()?;
        let body = self.block()?;
        Ok(timed_node(at, window, body))
    }
}
