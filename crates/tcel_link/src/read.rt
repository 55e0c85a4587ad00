ghost use Rattle.std.specs.Prelude.{◌≡◌, ◌<◌, ◌≤◌, ◌∷◌, ◌++◌, [], ℕ, List, length, map, IfNone, IfOk, IfSome};
ghost use Rattle.std.specs.List.{list_any};
ghost use Rattle.tcel_core.specs.Plain.{plain_set, plain_task};
ghost use Rattle.tcel_core.specs.Sound.{IsSoundSet};
ghost use Rattle.tcel_link.specs.Conditions.{AreLinks};
ghost use Rattle.tcel_link.specs.Lines.{bad, by_rest, line_of};
ghost use Rattle.tcel_link.specs.Links.{Reads, Takes, after_line, behind_link, feeds, links_in};
ghost use Rattle.tcel_script.specs.Lines.{words};

use crate::fail::LinkFail;
use crate::link::{Link, Links};
use crate::port::{Port, input_of, output_of};
use crate::receives::receives_in_loop;
use std::alloc::Global;
use tcel_core::{CoreTask, Set};
use tcel_num::NoMemory;
use tcel_script::{is_comment, next_line, next_word};

/// The links of a text for the tasks of a checked program, or its first faulty line (docs/formats.md). It has at most 65,536 bytes.
pub fn read_links(alloc: Global, bytes: &[u8], set: &Set) -> Result<Links, LinkFail>
    requires short { length bytes.now ≤ 65536 }
    requires sound { IsSoundSet (plain_set set.now) }
    ensures read { Reads result (links_in (plain_set set.now) bytes.now) }
    ensures links { IfOk result (AreLinks (plain_set set.now)) }
{
    let tasks = set.tasks.as_slice();
    let mut links = Vec::new(alloc);
    let mut rest = bytes;
    let mut number = 0;
    while !rest.is_empty() {
        let (line, more) = next_line(rest);
        number += 1;
        take_line(line, number, tasks, &mut links)?;
        rest = more;
    }
    Ok(Links::new(links))
}

/// Takes the link of the line with this number, which counts from 1.
fn take_line(
    line: &[u8],
    number: u32,
    tasks: &[CoreTask],
    links: &mut Vec<Link>,
) -> Result<(), LinkFail>
    requires { IsSoundSet (map plain_task tasks.now) }
    ensures { Takes result links.new.items (after_line (map plain_task tasks.now) number links.old.items (line_of line.now)) }
{
    if is_comment(line) {
        return Ok(());
    }
    let Some((from, rest)) = next_word(line) else {
        return Ok(());
    };
    let Some((output, to, input)) = three_words(rest) else {
        return Err(LinkFail::BadLine { line: number });
    };
    let Some(output) = output_of(tasks, from, output) else {
        return Err(LinkFail::NoOutput { line: number });
    };
    let Some(input) = input_of(tasks, to, input) else {
        return Err(LinkFail::NoInput { line: number });
    };
    take_link(output, input, number, tasks, links)
}

/// The words of a text, where there are three.
fn three_words(text: &[u8]) -> Option<(&[u8], &[u8], &[u8])>
    ensures none { IfNone result ((from : List ℕ) → by_rest from (words text.now) ≡ bad) }
    ensures some { IfSome result (λ r. words text.now ≡ r.0.now ∷ r.1.now ∷ r.2.now ∷ []) }
{
    let (output, rest) = next_word(text)?;
    let (to, rest) = next_word(rest)?;
    let (input, rest) = next_word(rest)?;
    if next_word(rest).is_some() {
        return None;
    }
    Some((output, to, input))
}

/// Takes a link between these ports.
fn take_link(
    output: Port,
    input: Port,
    number: u32,
    tasks: &[CoreTask],
    links: &mut Vec<Link>,
) -> Result<(), LinkFail>
    requires { input.task < length tasks.now }
    ensures { Takes result links.new.items (behind_link (map plain_task tasks.now) number links.old.items output input) }
{
    if is_linked(links, input) {
        return Err(LinkFail::InputTwice { line: number });
    }
    if receives_in_loop(&tasks[input.task as usize].body, input.port, false) {
        return Err(LinkFail::InLoop { line: number });
    }
    let link = Link {
        from: output.task,
        output: output.port,
        to: input.task,
        input: input.port,
    };
    push(links, link)?;
    Ok(())
}

fn push(links: &mut Vec<Link>, link: Link) -> Result<(), NoMemory>
    ensures { IfOk result (λ _. links.new.items ≡ links.old.items ++ link ∷ []) }
{
    links.push(link)?;
    Ok(())
}

/// Whether one of the links leads to this input.
fn is_linked(links: &[Link], input: Port) -> bool
    ensures { result ≡ list_any (feeds input.task input.port) links.now }
{
    links
        .iter()
        .any(|link| link.to == input.task && link.input == input.port)
}
