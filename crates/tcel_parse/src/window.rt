ghost use Rattle.std.specs.Prelude.{◌≡◌, [], ◌∷◌, true, None, IfOk, OnOk};
ghost use Rattle.tcel_grammar.specs.Machine.{is_word, do_clauses, behind_after, last_clause};
ghost use Rattle.tcel_grammar.specs.Statements.{IsClause, IsWindow};
ghost use Rattle.tcel_token.specs.declared.keyword.Keyword.{Keyword};
ghost use Rattle.tcel_parse.specs.Reading.{left, sees, Gives, GoesNotBack};

use crate::fail::Stop;
use crate::parser::Parser;
use tcel_token::Keyword;
use tcel_tree::{Placed, Window};

impl Parser<'_> {
    /// The clauses of a `do`.
    pub(crate) fn window(&mut self) -> Result<Window, Stop>
        ensures tree { IfOk result (λ w. IsWindow (left self.old) w (left self.new)) }
        ensures run { Gives result self.old self.new (do_clauses ∷ []) [] }
        ensures onward { OnOk result (GoesNotBack self.old self.new) }
    {
        if self.sees_word(Keyword::Start) {
            return self.start_clauses();
        }
        let within = self.within()?;
        Ok(Window {
            after: None,
            before: None,
            within,
        })
    }

    /// The clauses of a `do`, of which the first begins with `start`.
    fn start_clauses(&mut self) -> Result<Window, Stop>
        requires { sees (is_word Keyword.Start) (left self.old) ≡ true }
        ensures tree { IfOk result (λ w. IsWindow (left self.old) w (left self.new)) }
        ensures run { Gives result self.old self.new (do_clauses ∷ []) [] }
        ensures onward { OnOk result (GoesNotBack self.old self.new) }
    {
        self.take_word(Keyword::Start)?;
        if self.sees_word(Keyword::After) {
            self.take_word(Keyword::After)?;
            let after = self.expect_number()?;
            let before = self.before()?;
            let within = self.within()?;
            Ok(Window {
                after: Some(after),
                before,
                within,
            })
        } else if self.sees_word(Keyword::Before) {
            self.take_word(Keyword::Before)?;
            let bound = self.expect_number()?;
            let ending = self.within()?;
            Ok(Window {
                after: None,
                before: Some(bound),
                within: ending,
            })
        } else {
            Err(Stop::Syntax)
        }
    }

    /// `start before`, behind `start after`.
    fn before(&mut self) -> Result<Option<Placed>, Stop>
        ensures tree { IfOk result (λ bound. IsClause Keyword.Start Keyword.Before (left self.old) bound (left self.new)) }
        ensures run { Gives result self.old self.new (behind_after ∷ []) (last_clause ∷ []) }
        ensures onward { OnOk result (GoesNotBack self.old self.new) }
    {
        if !self.sees_word(Keyword::Start) {
            return Ok(None);
        }
        self.take_word(Keyword::Start)?;
        self.expect_word(Keyword::Before)?;
        let bound = self.expect_number()?;
        Ok(Some(bound))
    }

    /// `finish within`.
    pub(crate) fn within(&mut self) -> Result<Option<Placed>, Stop>
        ensures tree { IfOk result (λ bound. IsClause Keyword.Finish Keyword.Within (left self.old) bound (left self.new)) }
        ensures run { Gives result self.old self.new (last_clause ∷ []) [] }
        ensures onward { OnOk result (GoesNotBack self.old self.new) }
    {
        if !self.sees_word(Keyword::Finish) {
            return Ok(None);
        }
        self.take_word(Keyword::Finish)?;
        self.expect_word(Keyword::Within)?;
        let bound = self.expect_number()?;
        Ok(Some(bound))
    }
}
