ghost use Rattle.std.specs.Prelude.{◌≡◌, ◌++◌, Some, IfOk, OnOk};
ghost use Rattle.tcel_core.specs.Plain.{plain_body, plain_stmt};
ghost use Rattle.tcel_demand.specs.PlanViews.{name_of};
ghost use Rattle.tcel_cost.specs.CostSteps.{block_cost, stmt_cost, entered};
ghost use Rattle.tcel_cost.specs.PointSteps.{block_points, point_at, stmt_points};
ghost use Rattle.tcel_cost.specs.Rooms.{HasRoom, block_most, stmt_most};

use crate::bodies::{after_body, after_item, jump_cost};
use crate::cycles::expr_cycles;
use crate::holds::hold_of;
use crate::numbers::{Cost, either, entered, held, passed};
use sqlite_items::Items;
use tcel_core::{Body, CoreStmt, Var};
use tcel_demand::{Point, PointName};
use tcel_num::NoMemory;
use tcel_target::Costs;

/// Adds the points of the blocks in a body, and answers the cost of what was walked before and then of the body.
#[cycle(points)]
pub(crate) fn add_points(
    body: &Body,
    vars: &[Var],
    costs: &Costs,
    before: Cost,
    points: &mut Items<Point>,
) -> Result<Cost, NoMemory>
    requires { HasRoom before (block_most (plain_body body.now) vars.now costs.now) }
    ensures cost { IfOk result (λ c. c ≡ block_cost (plain_body body.now) vars.now costs.now before) }
    ensures points { OnOk result (points.new
        ≡ points.old ++ block_points (plain_body body.now) vars.now costs.now before.total) }
{
    let mut cost = before;
    for stmt in body.list.as_slice() {
        cost = add_stmt_points(stmt, vars, costs, cost, points)?;
    }
    Ok(cost)
}

#[cycle(points)]
fn add_stmt_points(
    stmt: &CoreStmt,
    vars: &[Var],
    costs: &Costs,
    before: Cost,
    points: &mut Items<Point>,
) -> Result<Cost, NoMemory>
    requires { HasRoom before (stmt_most (plain_stmt stmt.now) vars.now costs.now) }
    ensures cost { IfOk result (λ c. c ≡ stmt_cost (plain_stmt stmt.now) vars.now costs.now before) }
    ensures points { OnOk result (points.new
        ≡ points.old ++ stmt_points (plain_stmt stmt.now) vars.now costs.now before.total) }
{
    match stmt {
        CoreStmt::Item { id: _, item } => Ok(after_item(item, vars, costs, before)),
        CoreStmt::If {
            id: _,
            test,
            yes,
            no,
        } => {
            let inner = passed(before, expr_cycles(test, costs) + costs.branch as u64);
            let held = add_points(yes, vars, costs, inner, points)?;
            let other = add_points(no, vars, costs, inner, points)?;
            Ok(either(passed(held, jump_cost(no, costs)), other))
        }
        CoreStmt::Do {
            id,
            after,
            before: start,
            within,
            body,
        } => {
            let inner = held(before, hold_of(*after, body));
            let own = after_body(body, vars, costs, entered(inner.total));
            push_point(PointName::Before(*id), own.first, *start, points)?;
            push_point(PointName::Within(*id), own.last, *within, points)?;
            add_points(body, vars, costs, inner, points)
        }
    }
}

/// Adds a point, where both its count and its bound are there.
fn push_point(
    name: PointName,
    count: Option<u64>,
    bound: Option<u64>,
    points: &mut Items<Point>,
) -> Result<(), NoMemory>
    ensures { OnOk result (points.new ≡ points.old ++ point_at (name_of name) count bound) }
{
    if let Some(prefix) = count {
        if let Some(bound) = bound {
            points.push(Point {
                prefix,
                bound,
                name,
            })?;
        }
    }
    Ok(())
}
