ghost use Rattle.std.specs.Prelude.{◌≡◌, ◌+◌, ◌<◌, ◌≤◌, ◌||◌, ◌==◌, nat_lt, length, option_to_list};
ghost use Rattle.std.specs.List.{list_any};
ghost use Rattle.tcel_num.specs.Arithmetic.{is_unary};
ghost use Rattle.tcel_image.specs.Instructions.{targets, next_places, pops, pushes};
ghost use Rattle.tcel_image.specs.Validity.{jumps_out, has_bad_cell, has_bad_port, has_other_depth, is_end, goes_on, falls_off, has_bad_depth, line_has};
ghost use Rattle.tcel_verify.specs.First.{IsFirstKind};

use tcel_image::{FlawKind, ImageTask, Instr, Line};
use tcel_num::Op;

const DEEPEST: u32 = 128;

fn target_of(instr: Instr) -> Option<u32>
    ensures { option_to_list result ≡ targets instr }
{
    match instr {
        Instr::Jump(target) | Instr::Branch(target) | Instr::Loop(_, _, target) => Some(target),
        _ => None,
    }
}

fn jumps_out(task: &ImageTask, instr: Instr) -> bool
    ensures { result ≡ jumps_out task.now instr }
{
    match target_of(instr) {
        Some(target) => task.code.len() <= target as usize,
        None => false,
    }
}

fn passes(task: &ImageTask, first: u32, length: u32) -> bool
    ensures { result ≡ nat_lt task.now.cells (first + length) }
{
    u64::from(task.cells) < u64::from(first) + u64::from(length)
}

fn has_bad_cell(task: &ImageTask, instr: Instr) -> bool
    ensures { result ≡ has_bad_cell task.now instr }
{
    match instr {
        Instr::Get(cell) | Instr::Put(cell) => passes(task, cell, 1),
        Instr::Loop(cell, ..) | Instr::Receive(_, cell) => passes(task, cell, 1),
        Instr::GetAt(first, length) | Instr::PutAt(first, length) => passes(task, first, length),
        Instr::Copy(from, to, length) => passes(task, from, length) || passes(task, to, length),
        _ => false,
    }
}

fn has_bad_port(task: &ImageTask, instr: Instr) -> bool
    ensures { result ≡ has_bad_port task.now instr }
{
    match instr {
        Instr::Receive(port, _) => task.inputs.len() <= port as usize,
        Instr::Send(port) => task.outputs.len() <= port as usize,
        _ => false,
    }
}

fn is_unary(op: Op) -> bool
    ensures { result ≡ is_unary op }
{
    matches!(op, Op::Neg | Op::Not)
}

fn pops(instr: Instr) -> u32
    ensures value { result ≡ pops instr }
    ensures bound { result ≤ 2 }
{
    match instr {
        Instr::Put(_) | Instr::GetAt(..) | Instr::Branch(_) | Instr::Send(_) => 1,
        Instr::PutAt(..) => 2,
        Instr::Arith(op) => { if is_unary(op) { 1 } else { 2 } }
        _ => 0,
    }
}

fn pushes(instr: Instr) -> u32
    ensures value { result ≡ pushes instr }
    ensures bound { result ≤ 1 }
{
    match instr {
        Instr::Const(_) | Instr::Get(_) | Instr::GetAt(..) | Instr::Arith(_) => 1,
        _ => 0,
    }
}

fn has_other_depth(task: &ImageTask, depth: u32, place: usize) -> bool
    ensures { result ≡ has_other_depth task.now depth place }
{
    match task.code.get(place) {
        Some(line) => u32::from(line.depth) != depth,
        None => false,
    }
}

fn is_end(instr: Instr) -> bool
    ensures { result ≡ is_end instr }
{
    matches!(instr, Instr::End)
}

fn goes_on(instr: Instr) -> bool
    ensures { result ≡ goes_on instr }
{
    !matches!(instr, Instr::Jump(_) | Instr::End)
}

/// Whether the line is the code's last and goes on.
fn falls_off(task: &ImageTask, place: usize, instr: Instr) -> bool
    requires { place < 65536 }
    ensures { result ≡ falls_off task.now place instr }
{
    place + 1 == task.code.len() && goes_on(instr)
}

fn leads_to_other_depth(task: &ImageTask, depth: u32, place: usize, instr: Instr) -> bool
    requires { place < 65536 }
    ensures { result ≡ list_any (has_other_depth task.now depth) (next_places place instr) }
{
    match instr {
        Instr::Jump(target) => has_other_depth(task, depth, target as usize),
        Instr::Branch(target) | Instr::Loop(_, _, target) => {
            has_other_depth(task, depth, target as usize) || has_other_depth(task, depth, place + 1)
        }
        Instr::End => false,
        _ => has_other_depth(task, depth, place + 1),
    }
}

fn has_bad_depth(task: &ImageTask, place: usize, line: Line) -> bool
    requires { place < 65536 }
    ensures { result ≡ has_bad_depth task.now place line }
{
    let depth = u32::from(line.depth);
    let popped = pops(line.instr);
    if depth < popped {
        return true;
    }
    let after = depth - popped + pushes(line.instr);
    DEEPEST < after
        || leads_to_other_depth(task, after, place, line.instr)
        || ((place == 0 || is_end(line.instr)) && depth != 0)
}

/// The line's first flaw.
pub(crate) fn line_flaw(task: &ImageTask, place: usize, line: Line) -> Option<FlawKind>
    requires { place < 65536 }
    ensures { IsFirstKind (λ kind. line_has task.now kind place line) result }
{
    if jumps_out(task, line.instr) {
        Some(FlawKind::JumpOut)
    } else if has_bad_cell(task, line.instr) {
        Some(FlawKind::BadCell)
    } else if has_bad_port(task, line.instr) {
        Some(FlawKind::BadPort)
    } else if has_bad_depth(task, place, line) {
        Some(FlawKind::BadDepth)
    } else if falls_off(task, place, line.instr) {
        Some(FlawKind::FallsOff)
    } else {
        None
    }
}
