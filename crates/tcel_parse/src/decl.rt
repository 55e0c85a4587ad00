ghost use Rattle.std.specs.Prelude.{◌≡◌, [], ◌∷◌, Bool, true, false, IfOk, OnOk};
ghost use Rattle.tcel_grammar.specs.Machine.{is_word, more_decls, behind_keeper, behind_int, behind_bool, first_int, first_bool};
ghost use Rattle.tcel_grammar.specs.Programs.{IsDecl, IsDecls, IsInt, IsBool};
ghost use Rattle.tcel_token.specs.declared.keyword.Keyword.{Keyword};
ghost use Rattle.tcel_parse.specs.Reading.{left, sees, Gives, GoesOn, GoesNotBack};
ghost use Rattle.tcel_num.specs.Arithmetic.{unary_value};
ghost use Rattle.tcel_num.specs.declared.op.Op.{Op};
ghost use Rattle.tcel_parse.specs.Parts.{IsKept, IsSet, IsSetTruth};

use crate::fail::Stop;
use crate::parser::Parser;
use sqlite_items::Items;
use tcel_num::neg;
use tcel_token::{Keyword, Sign};
use tcel_tree::{Decl, DeclKind, Placed};

impl Parser<'_> {
    /// The declarations of a task, up to its `every`.
    pub(crate) fn decls(&mut self) -> Result<Items<Decl>, Stop>
        ensures tree { IfOk result (λ ds. IsDecls (left self.old) ds (left self.new)) }
        ensures run { Gives result self.old self.new (more_decls ∷ []) (more_decls ∷ []) }
        ensures onward { OnOk result (GoesNotBack self.old self.new) }
        ensures every { OnOk result (sees (is_word Keyword.Every) (left self.new) ≡ true) }
    {
        let mut list = Items::new(self.alloc);
        'decls: while !self.sees_word(Keyword::Every) {
            let decl = self.decl()?;
            list.push(decl)?;
        }
        Ok(list)
    }

    /// A declaration; `every` doesn't stand here.
    fn decl(&mut self) -> Result<Decl, Stop>
        requires { sees (is_word Keyword.Every) (left self.old) ≡ false }
        ensures tree { IfOk result (λ d. IsDecl (left self.old) d (left self.new)) }
        ensures run { Gives result self.old self.new (more_decls ∷ []) (more_decls ∷ []) }
        ensures onward { OnOk result (GoesOn self.old self.new) }
    {
        if self.sees_word(Keyword::Input) {
            self.input()
        } else if self.sees_word(Keyword::Output) {
            self.output()
        } else if self.sees_word(Keyword::Local) {
            self.local()
        } else if self.sees_word(Keyword::State) {
            self.state()
        } else {
            Err(Stop::Syntax)
        }
    }

    fn input(&mut self) -> Result<Decl, Stop>
        requires { sees (is_word Keyword.Input) (left self.old) ≡ true }
        ensures tree { IfOk result (λ d. IsDecl (left self.old) d (left self.new)) }
        ensures run { Gives result self.old self.new (more_decls ∷ []) (more_decls ∷ []) }
        ensures onward { OnOk result (GoesOn self.old self.new) }
    {
        self.take_word(Keyword::Input)?;
        let name = self.expect_name()?;
        self.expect_sign(Sign::Semicolon)?;
        Ok(Decl {
            kind: DeclKind::Input,
            name: name.name,
            at: name.at,
        })
    }

    fn output(&mut self) -> Result<Decl, Stop>
        requires { sees (is_word Keyword.Output) (left self.old) ≡ true }
        ensures tree { IfOk result (λ d. IsDecl (left self.old) d (left self.new)) }
        ensures run { Gives result self.old self.new (more_decls ∷ []) (more_decls ∷ []) }
        ensures onward { OnOk result (GoesOn self.old self.new) }
    {
        self.take_word(Keyword::Output)?;
        let name = self.expect_name()?;
        self.expect_sign(Sign::Semicolon)?;
        Ok(Decl {
            kind: DeclKind::Output,
            name: name.name,
            at: name.at,
        })
    }

    fn local(&mut self) -> Result<Decl, Stop>
        requires { sees (is_word Keyword.Local) (left self.old) ≡ true }
        ensures tree { IfOk result (λ d. IsDecl (left self.old) d (left self.new)) }
        ensures run { Gives result self.old self.new (more_decls ∷ []) (more_decls ∷ []) }
        ensures onward { OnOk result (GoesOn self.old self.new) }
    {
        self.take_word(Keyword::Local)?;
        let decl = self.kept(false)?;
        Ok(decl)
    }

    fn state(&mut self) -> Result<Decl, Stop>
        requires { sees (is_word Keyword.State) (left self.old) ≡ true }
        ensures tree { IfOk result (λ d. IsDecl (left self.old) d (left self.new)) }
        ensures run { Gives result self.old self.new (more_decls ∷ []) (more_decls ∷ []) }
        ensures onward { OnOk result (GoesOn self.old self.new) }
    {
        self.take_word(Keyword::State)?;
        let decl = self.kept(true)?;
        Ok(decl)
    }

    /// What stands behind `local`, or behind `state`.
    fn kept(&mut self, state: bool) -> Result<Decl, Stop>
        ensures tree { IfOk result (λ d. IsKept state (left self.old) d (left self.new)) }
        ensures run { Gives result self.old self.new (behind_keeper state ∷ []) [] }
        ensures onward { OnOk result (GoesOn self.old self.new) }
    {
        if self.sees_word(Keyword::Int) {
            self.take_word(Keyword::Int)?;
            let name = self.expect_name()?;
            let kind = self.int_end(state)?;
            self.expect_sign(Sign::Semicolon)?;
            Ok(Decl {
                kind,
                name: name.name,
                at: name.at,
            })
        } else if self.sees_word(Keyword::Bool) {
            self.take_word(Keyword::Bool)?;
            let flag = self.expect_name()?;
            let truth = self.bool_end(state)?;
            self.expect_sign(Sign::Semicolon)?;
            Ok(Decl {
                kind: truth,
                name: flag.name,
                at: flag.at,
            })
        } else {
            Err(Stop::Syntax)
        }
    }

    /// What stands behind `int NAME`.
    fn int_end(&mut self, state: bool) -> Result<DeclKind, Stop>
        ensures tree { IfOk result (λ kind. IsInt state (left self.old) kind (left self.new)) }
        ensures run { Gives result self.old self.new (behind_int state ∷ []) [] }
        ensures onward { OnOk result (GoesNotBack self.old self.new) }
    {
        if self.sees_sign(Sign::LeftSquare) {
            self.take_sign(Sign::LeftSquare)?;
            let length = self.expect_number()?;
            self.expect_sign(Sign::RightSquare)?;
            return Ok(DeclKind::Array { state, length });
        }
        if !state {
            return Ok(DeclKind::Int {
                state: false,
                first: None,
            });
        }
        if !self.sees_sign(Sign::Is) {
            return Ok(DeclKind::Int {
                state: true,
                first: None,
            });
        }
        self.take_sign(Sign::Is)?;
        let first = self.first_int()?;
        Ok(DeclKind::Int {
            state: true,
            first: Some(first),
        })
    }

    /// A first value, behind its `=`.
    fn first_int(&mut self) -> Result<i64, Stop>
        ensures tree { IfOk result (λ n. IsSet (left self.old) n (left self.new)) }
        ensures run { Gives result self.old self.new (first_int ∷ []) [] }
        ensures onward { OnOk result (GoesOn self.old self.new) }
    {
        if self.sees_number() {
            let value = self.take_number()?;
            Ok(value.value)
        } else if self.sees_sign(Sign::Minus) {
            self.take_sign(Sign::Minus)?;
            let below = self.expect_number()?;
            Ok(opposite(below))
        } else {
            Err(Stop::Syntax)
        }
    }

    /// What stands behind `bool NAME`.
    fn bool_end(&mut self, state: bool) -> Result<DeclKind, Stop>
        ensures tree { IfOk result (λ kind. IsBool state (left self.old) kind (left self.new)) }
        ensures run { Gives result self.old self.new (behind_bool state ∷ []) [] }
        ensures onward { OnOk result (GoesNotBack self.old self.new) }
    {
        if !state {
            return Ok(DeclKind::Bool {
                state: false,
                first: None,
            });
        }
        if !self.sees_sign(Sign::Is) {
            return Ok(DeclKind::Bool {
                state: true,
                first: None,
            });
        }
        self.take_sign(Sign::Is)?;
        let first = self.first_bool()?;
        Ok(DeclKind::Bool {
            state: true,
            first: Some(first),
        })
    }

    /// A first truth value, behind its `=`.
    fn first_bool(&mut self) -> Result<bool, Stop>
        ensures tree { IfOk result (λ b. IsSetTruth (left self.old) b (left self.new)) }
        ensures run { Gives result self.old self.new (first_bool ∷ []) [] }
        ensures onward { OnOk result (GoesOn self.old self.new) }
    {
        if self.sees_word(Keyword::True) {
            self.take_word(Keyword::True)?;
            Ok(true)
        } else if self.sees_word(Keyword::False) {
            self.take_word(Keyword::False)?;
            Ok(false)
        } else {
            Err(Stop::Syntax)
        }
    }
}

/// What `-` makes of a number.
fn opposite(number: Placed) -> i64
    ensures { result ≡ unary_value Op.Neg number.value }
{
    neg(number.value)
}
