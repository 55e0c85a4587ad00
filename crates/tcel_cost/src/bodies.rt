ghost use Rattle.std.specs.Prelude.{◌≡◌, ◌+◌, ◌<◌, ◌≤◌, ◌^◌};
ghost use Rattle.tcel_core.specs.Plain.{plain_body, plain_item, plain_stmt};
ghost use Rattle.tcel_target.specs.Costs.{CostsInRange};
ghost use Rattle.tcel_cost.specs.Bodies.{IsTaskBody};
ghost use Rattle.tcel_cost.specs.CostSteps.{act_cost, block_cost, entered, passed, stmt_cost};
ghost use Rattle.tcel_cost.specs.Rooms.{HasRoom, act_most, block_most, stmt_most};
ghost use Rattle.tcel_cost.specs.Walks.{IsFirstCount, IsLastCount, IsQuietCount, IsTotal, Walks, jump_cost};

use crate::cycles::{expr_cycles, width};
use crate::holds::hold_of;
use crate::numbers::{Cost, either, entered, held, joined, passed, rounds, shown};
use tcel_core::{Body, CoreStmt, Item, Var};
use tcel_target::Costs;

/// What the body of a task costs, or one of its two parts, with the variables of the task or of the parts, where it is
/// entered at this count (docs/analysis.md). All counts are in cycles from the frame's start.
pub fn cost_of(body: &Body, vars: &[Var], entry: u64, costs: &Costs) -> Cost
    requires body { IsTaskBody (plain_body body.now) vars.now }
    requires entry { entry < 2 ^ 61 }
    requires costs { CostsInRange costs.now }
    ensures total { IsTotal (Walks (plain_body body.now) vars.now costs.now) entry result.total }
    ensures first { IsFirstCount (Walks (plain_body body.now) vars.now costs.now) entry result.first }
    ensures last { IsLastCount (Walks (plain_body body.now) vars.now costs.now) entry result.last }
    ensures quiet { IsQuietCount (Walks (plain_body body.now) vars.now costs.now) entry result.quiet }
{
    after_body(body, vars, costs, entered(entry))
}

/// The cost of what was walked before and then of a body.
#[cycle(bodies)]
pub(crate) fn after_body(body: &Body, vars: &[Var], costs: &Costs, before: Cost) -> Cost
    requires { HasRoom before (block_most (plain_body body.now) vars.now costs.now) }
    ensures { result ≡ block_cost (plain_body body.now) vars.now costs.now before }
{
    let mut cost = before;
    for stmt in body.list.as_slice() {
        cost = after_stmt(stmt, vars, costs, cost);
    }
    cost
}

#[cycle(bodies)]
fn after_stmt(stmt: &CoreStmt, vars: &[Var], costs: &Costs, before: Cost) -> Cost
    requires { HasRoom before (stmt_most (plain_stmt stmt.now) vars.now costs.now) }
    ensures { result ≡ stmt_cost (plain_stmt stmt.now) vars.now costs.now before }
{
    match stmt {
        CoreStmt::Item { id: _, item } => after_item(item, vars, costs, before),
        CoreStmt::If {
            id: _,
            test,
            yes,
            no,
        } => {
            let inner = passed(before, expr_cycles(test, costs) + costs.branch as u64);
            let held = after_body(yes, vars, costs, inner);
            let other = after_body(no, vars, costs, inner);
            either(passed(held, jump_cost(no, costs)), other)
        }
        CoreStmt::Do {
            id: _,
            after,
            before: _,
            within: _,
            body,
        } => after_body(body, vars, costs, held(before, hold_of(*after, body))),
    }
}

/// The cost of what was walked before and then of an item.
#[cycle(bodies)]
pub(crate) fn after_item(item: &Item, vars: &[Var], costs: &Costs, before: Cost) -> Cost
    requires { HasRoom before (act_most (plain_item item.now) vars.now costs.now) }
    ensures { result ≡ act_cost (plain_item item.now) vars.now costs.now before }
{
    match item {
        Item::Assign(_, value) => passed(before, expr_cycles(value, costs) + costs.store as u64),
        Item::AssignAt(_, index, value) => {
            let operands = expr_cycles(index, costs) + expr_cycles(value, costs);
            passed(before, operands + costs.store_at as u64)
        }
        Item::Receive(_, _) => shown(before, costs.receive as u64),
        Item::Send(value, _) => shown(before, expr_cycles(value, costs) + costs.send as u64),
        Item::For(_, turns, body) => {
            let begun = passed(before, costs.const_ as u64 + costs.store as u64);
            let stepped = costs.load as u64 + costs.store as u64;
            let round = after_round(body, vars, costs, stepped);
            joined(begun, rounds(*turns as u64, round))
        }
        Item::While(test, turns, body) => {
            let begun = passed(before, costs.const_ as u64 + costs.store as u64);
            let tested = expr_cycles(test, costs) + costs.branch as u64;
            let round = after_round(body, vars, costs, tested);
            either(
                passed(begun, tested),
                joined(begun, rounds(*turns as u64, round)),
            )
        }
        Item::Copy(from, _) => {
            let word = costs.load as u64 + costs.store as u64;
            passed(before, width(vars, *from) * word)
        }
    }
}

/// What a round of a loop costs from 0, of which the first cycles are these.
#[cycle(bodies)]
fn after_round(body: &Body, vars: &[Var], costs: &Costs, begun: u64) -> Cost
    requires { begun + block_most (plain_body body.now) vars.now costs.now + costs.now.loop_ ≤ 2 ^ 63 }
    ensures { result ≡ passed costs.now.loop_ (block_cost (plain_body body.now) vars.now costs.now (entered begun)) }
{
    passed(
        after_body(body, vars, costs, entered(begun)),
        costs.loop_ as u64,
    )
}

/// The cost of the jump that ends the code of an `if`'s first branch, where the other one has a statement.
pub(crate) fn jump_cost(other: &Body, costs: &Costs) -> u64
    ensures { result ≡ jump_cost costs.now (plain_body other.now) }
{
    if other.list.is_empty() {
        0
    } else {
        costs.jump as u64
    }
}
