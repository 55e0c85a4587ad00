ghost use Rattle.std.specs.Prelude.{◌≡◌, ◌++◌, if◌then◌else◌, IfOk, pos, replicate};
ghost use Rattle.tcel_core.specs.Plain.{plain_body, plain_item, plain_stmt};
ghost use Rattle.tcel_link.specs.Receives.{act_receives, act_receives_in_loop, receives, receives_in_loop, stmt_receives, stmt_receives_in_loop};

use tcel_core::{Body, CoreStmt, Item};
use tcel_num::NoMemory;

/// Whether a receive from the input stands inside a loop, where the body itself may stand inside one.
#[cycle(looped)]
pub(crate) fn receives_in_loop(body: &Body, input: u32, inside: bool) -> bool
    ensures { result ≡ receives_in_loop (plain_body body.now) input inside }
{
    for stmt in body.list.as_slice() {
        if stmt_receives_in_loop(stmt, input, inside) {
            return true;
        }
    }
    false
}

#[cycle(looped)]
fn stmt_receives_in_loop(stmt: &CoreStmt, input: u32, inside: bool) -> bool
    ensures { result ≡ stmt_receives_in_loop (plain_stmt stmt.now) input inside }
{
    match stmt {
        CoreStmt::Item { id: _, item } => item_receives_in_loop(item, input, inside),
        CoreStmt::If {
            id: _,
            test: _,
            yes,
            no,
        } => receives_in_loop(yes, input, inside) || receives_in_loop(no, input, inside),
        CoreStmt::Do { body, .. } => receives_in_loop(body, input, inside),
    }
}

#[cycle(looped)]
fn item_receives_in_loop(item: &Item, input: u32, inside: bool) -> bool
    ensures { result ≡ act_receives_in_loop (plain_item item.now) input inside }
{
    match item {
        Item::Receive(_, port) => inside && *port == input,
        Item::For(_, _, body) | Item::While(_, _, body) => receives_in_loop(body, input, true),
        Item::Assign(_, _) | Item::AssignAt(_, _, _) | Item::Send(_, _) | Item::Copy(_, _) => false,
    }
}

/// Appends a word for each receive from the input.
#[cycle(words)]
pub(crate) fn push_words(body: &Body, input: u32, words: &mut Vec<i64>) -> Result<(), NoMemory>
    ensures { IfOk result (λ _. words.new.items ≡ words.old.items ++ replicate (receives (plain_body body.now) input) (pos 0)) }
{
    for stmt in body.list.as_slice() {
        push_stmt_words(stmt, input, words)?;
    }
    Ok(())
}

#[cycle(words)]
fn push_stmt_words(stmt: &CoreStmt, input: u32, words: &mut Vec<i64>) -> Result<(), NoMemory>
    ensures { IfOk result (λ _. words.new.items ≡ words.old.items ++ replicate (stmt_receives (plain_stmt stmt.now) input) (pos 0)) }
{
    match stmt {
        CoreStmt::Item { id: _, item } => push_item_words(item, input, words),
        CoreStmt::If {
            id: _,
            test: _,
            yes,
            no,
        } => {
            push_words(yes, input, words)?;
            push_words(no, input, words)
        }
        CoreStmt::Do { body, .. } => push_words(body, input, words),
    }
}

#[cycle(words)]
fn push_item_words(item: &Item, input: u32, words: &mut Vec<i64>) -> Result<(), NoMemory>
    ensures { IfOk result (λ _. words.new.items ≡ words.old.items ++ replicate (act_receives (plain_item item.now) input) (pos 0)) }
{
    match item {
        Item::Receive(_, port) => push_word(*port == input, words),
        Item::For(_, _, body) | Item::While(_, _, body) => push_words(body, input, words),
        Item::Assign(_, _) | Item::AssignAt(_, _, _) | Item::Send(_, _) | Item::Copy(_, _) => Ok(
            (),
        ),
    }
}

/// Appends a word where it is wanted.
fn push_word(wanted: bool, words: &mut Vec<i64>) -> Result<(), NoMemory>
    ensures { IfOk result (λ _. words.new.items ≡ words.old.items ++ replicate (if wanted then 1 else 0) (pos 0)) }
{
    if wanted {
        words.push(0)?;
    }
    Ok(())
}
