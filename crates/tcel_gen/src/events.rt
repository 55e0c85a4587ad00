ghost use Rattle.std.specs.Prelude.{◌≡◌};
ghost use Rattle.tcel_core.specs.Contents.{has_event, stmt_has_event};
ghost use Rattle.tcel_core.specs.Plain.{plain_body, plain_stmt};

use tcel_core::{Body, CoreStmt, has_event};

/// Whether there is a receive or a send in statements.
#[cycle(events)]
pub(crate) fn body_has_event(body: &Body) -> bool
    ensures { result ≡ has_event (plain_body body.now) }
{
    for stmt in body.list.as_slice() {
        if stmt_has_event(stmt) {
            return true;
        }
    }
    false
}

#[cycle(events)]
fn stmt_has_event(stmt: &CoreStmt) -> bool
    ensures { result ≡ stmt_has_event (plain_stmt stmt.now) }
{
    match stmt {
        CoreStmt::Item { id: _, item } => has_event(item),
        CoreStmt::If {
            id: _,
            test: _,
            yes,
            no,
        } => body_has_event(yes) || body_has_event(no),
        CoreStmt::Do { body, .. } => body_has_event(body),
    }
}
