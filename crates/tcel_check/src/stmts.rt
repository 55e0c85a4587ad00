ghost use Rattle.std.specs.Prelude.{◌≡◌, ℕ, List, Option, None};
ghost use Rattle.tcel_check.specs.Known.{kind_in};
ghost use Rattle.tcel_check.specs.Sights.{assigned_sights, block_sights, clause_sights, inside, stmt_sights, window_sights};
ghost use Rattle.tcel_check.specs.declared.purpose.Purpose.TheVariants.{Scalar};
ghost use Rattle.tcel_check.specs.Types.{type_of};
ghost use Rattle.tcel_check.specs.Walks.{Saw};
ghost use Rattle.tcel_tree.specs.declared.task.DeclKind.{DeclKind};
ghost use Rattle.tcel_tree.specs.Plain.{plain_block, plain_expr, plain_stmt};

use crate::names::Names;
use crate::purpose::Purpose;
use crate::value_type::ValueType;
use crate::walk::{MOST_COUNT, MOST_TIME, Walk, scalar_type};
use tcel_num::{At, Name};
use tcel_tree::{Expr, Placed, Stmt, StmtKind, Window};

const INT: Option<ValueType> = Some(ValueType::Int);

const BOOL: Option<ValueType> = Some(ValueType::Bool);

impl Walk {
    /// Statements inside this many loops.
    #[cycle(blocks)]
    pub fn block(&mut self, names: &Names, stmts: &[Stmt], loops: u8)
        ensures { Saw (kind_in names.now) self.old self.new (block_sights (plain_block stmts.now) (kind_in names.now) loops) }
    {
        for stmt in stmts {
            self.stmt(names, stmt, loops);
        }
    }

    #[cycle(blocks)]
    fn stmt(&mut self, names: &Names, stmt: &Stmt, loops: u8)
        ensures { Saw (kind_in names.now) self.old self.new (stmt_sights (plain_stmt stmt.now) (kind_in names.now) loops) }
    {
        self.node(stmt.at);
        match &stmt.what {
            StmtKind::Assign { name, value } => self.assign(names, stmt.at, name, value),
            StmtKind::AssignAt { name, index, value } => {
                self.name(names, stmt.at, name, Purpose::Element);
                self.expr(names, index, INT);
                self.expr(names, value, INT);
            }
            StmtKind::Receive {
                name,
                name_at,
                port,
                port_at,
            } => {
                self.name(names, *name_at, name, Purpose::Scalar(INT));
                self.name(names, *port_at, port, Purpose::From);
            }
            StmtKind::Send {
                value,
                port,
                port_at,
            } => {
                self.expr(names, value, INT);
                self.name(names, *port_at, port, Purpose::To);
            }
            StmtKind::If { test, yes, no } => {
                self.expr(names, test, BOOL);
                self.block(names, yes.as_slice(), loops);
                match no {
                    None => {}
                    Some(other) => self.block(names, other.as_slice(), loops),
                }
            }
            StmtKind::For {
                name,
                name_at,
                turns,
                body,
            } => {
                self.enter(stmt.at, loops);
                self.name(names, *name_at, name, Purpose::Scalar(INT));
                self.bound(turns, MOST_COUNT);
                self.block(names, body.as_slice(), inside(loops));
            }
            StmtKind::While { test, turns, body } => {
                self.enter(stmt.at, loops);
                self.expr(names, test, BOOL);
                self.bound(turns, MOST_COUNT);
                self.block(names, body.as_slice(), inside(loops));
            }
            StmtKind::Do { window, body } => {
                self.window(stmt.at, loops);
                self.clauses(window);
                self.block(names, body.as_slice(), loops);
            }
        }
    }

    /// An assigned value has its variable's type; nothing is wanted of it where there is no such scalar.
    fn assign(&mut self, names: &Names, at: At, name: &Name, value: &Expr)
        ensures { Saw (kind_in names.now) self.old self.new (assigned_sights at name.now (plain_expr value.now) (kind_in names.now)) }
    {
        self.name(names, at, name, Purpose::Scalar(None));
        self.expr(names, value, type_in(names, name));
    }

    fn clauses(&mut self, window: &Window)
        ensures { (kind : List ℕ → Option DeclKind) → Saw kind self.old self.new (window_sights window.now) }
    {
        self.clause(window.after);
        self.clause(window.before);
        self.clause(window.within);
    }

    /// A time, where it was written.
    pub fn clause(&mut self, time: Option<Placed>)
        ensures { (kind : List ℕ → Option DeclKind) → Saw kind self.old self.new (clause_sights time) }
    {
        if let Some(time) = time {
            self.bound(&time, MOST_TIME);
        }
    }
}

/// The type of the values that a name takes.
fn type_in(names: &Names, name: &Name) -> Option<ValueType>
    ensures { result ≡ type_of (kind_in names.now name.now) }
{
    match names.kind(name) {
        None => None,
        Some(kind) => scalar_type(kind),
    }
}

/// One loop more; behind three all count alike.
fn inside(loops: u8) -> u8
    ensures { result ≡ inside loops }
{
    if loops < 3 { loops + 1 } else { loops }
}
