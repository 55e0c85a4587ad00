ghost use Rattle.std.specs.Prelude.{◌≡◌};
ghost use Rattle.tcel_tree.specs.Plain.{plain_expr, plain_stmt, plain_block};
ghost use Rattle.tcel_tree.specs.Language.{assign, assign_at, receive, send, choice, for_loop, while_loop, timed};
ghost use Rattle.tcel_parse.specs.Reading.{plain_branch};

use crate::parser::Named;
use sqlite_items::Items;
use tcel_num::At;
use tcel_tree::{Expr, Placed, Stmt, StmtKind, Window};

pub(crate) fn assign_node(target: Named, value: Expr) -> Stmt
    ensures { plain_stmt result ≡ assign target.at target.name (plain_expr value) }
{
    Stmt {
        at: target.at,
        what: StmtKind::Assign {
            name: target.name,
            value,
        },
    }
}

pub(crate) fn assign_at_node(target: Named, index: Expr, value: Expr) -> Stmt
    ensures { plain_stmt result ≡ assign_at target.at target.name (plain_expr index) (plain_expr value) }
{
    Stmt {
        at: target.at,
        what: StmtKind::AssignAt {
            name: target.name,
            index,
            value,
        },
    }
}

pub(crate) fn receive_node(at: At, target: Named, port: Named) -> Stmt
    ensures { plain_stmt result ≡ receive at target.name target.at port.name port.at }
{
    let what = StmtKind::Receive {
        name: target.name,
        name_at: target.at,
        port: port.name,
        port_at: port.at,
    };
    Stmt { at, what }
}

pub(crate) fn send_node(at: At, value: Expr, port: Named) -> Stmt
    ensures { plain_stmt result ≡ send at (plain_expr value) port.name port.at }
{
    Stmt {
        at,
        what: StmtKind::Send {
            value,
            port: port.name,
            port_at: port.at,
        },
    }
}

pub(crate) fn choice_node(at: At, test: Expr, yes: Items<Stmt>, no: Option<Items<Stmt>>) -> Stmt
    ensures { plain_stmt result ≡ choice at (plain_expr test) (plain_block yes) (plain_branch no) }
{
    Stmt {
        at,
        what: StmtKind::If { test, yes, no },
    }
}

pub(crate) fn for_node(at: At, counter: Named, turns: Placed, body: Items<Stmt>) -> Stmt
    ensures { plain_stmt result ≡ for_loop at counter.name counter.at turns (plain_block body) }
{
    let what = StmtKind::For {
        name: counter.name,
        name_at: counter.at,
        turns,
        body,
    };
    Stmt { at, what }
}

pub(crate) fn while_node(at: At, test: Expr, turns: Placed, body: Items<Stmt>) -> Stmt
    ensures { plain_stmt result ≡ while_loop at (plain_expr test) turns (plain_block body) }
{
    Stmt {
        at,
        what: StmtKind::While { test, turns, body },
    }
}

pub(crate) fn timed_node(at: At, window: Window, body: Items<Stmt>) -> Stmt
    ensures { plain_stmt result ≡ timed at window (plain_block body) }
{
    Stmt {
        at,
        what: StmtKind::Do { window, body },
    }
}
