ghost use Rattle.std.specs.Prelude.{◌≡◌, ◌≢◌, ◌+◌, ◌^◌, ◌≤◌, ◌++◌, [], ◌∷◌, length, AllPairs, IfOk, None, Some, if◌then◌else◌, map, nat_lt, option_and_then, position, slice_index_or};
ghost use Rattle.tcel_script.specs.Script.{same};
ghost use Rattle.tcel_judge.specs.Courses.{HaveTaken, IsFirstBreach, Stands, judged, place, shown};
ghost use Rattle.tcel_judge.specs.FirstBreach.{breach_behind, entry_breach, is_disordered, is_over, promise_at, shown_of, shows_same};
ghost use Rattle.tcel_judge.specs.declared.verdict.Breach.TheVariants.{Early, Overdue};

use crate::course::{Coming, ComingWhat, Course};
use crate::verdict::Breach;
use tcel_num::{Name, NoMemory};
use tcel_trace::{LineWhat, TraceLine};

/// Passes over the entries of a trace's lines, each the next one of its task, up to the first line with a
/// breach; None where no line has one (docs/analysis.md). After NoMemory the courses are of no use.
pub(crate) fn first_breach(
    courses: &mut [Course],
    lines: &[TraceLine],
) -> Result<Option<Breach>, NoMemory>
    requires taken { HaveTaken (map judged courses.old) [] courses.old }
    requires names { AllPairs ◌≢◌ (map (λ j. j.task.name) (map judged courses.old)) }
    ensures breach { IfOk result (IsFirstBreach (map judged courses.old) lines.now) }
    ensures taken { IfOk result (λ found. found ≡ None → HaveTaken (map judged courses.old) lines.now courses.new) }
{
    for (number, line) in lines.iter().enumerate() {
        let breach = take_line(courses, &lines[..number], line)?;
        if breach.is_some() {
            return Ok(breach);
        }
    }
    Ok(None)
}

/// What is wrong with a line behind these; where nothing is, passes over its entry.
fn take_line(
    courses: &mut [Course],
    earlier: &[TraceLine],
    line: &TraceLine,
) -> Result<Option<Breach>, NoMemory>
    requires taken { HaveTaken (map judged courses.old) earlier.now courses.old }
    requires names { AllPairs ◌≢◌ (map (λ j. j.task.name) (map judged courses.old)) }
    ensures breach { IfOk result (λ found. found ≡ breach_behind (map judged courses.old) earlier.now line.now) }
    ensures taken { IfOk result (λ found. found ≡ None
        → HaveTaken (map judged courses.old) (earlier.now ++ line.now ∷ []) courses.new) }
{
    let number = number_behind(earlier);
    if is_disordered(earlier, line) {
        return Ok(Some(Breach::Order { line: number }));
    }
    let Some(place) = place_of(courses, line.task.bytes()) else {
        return Ok(Some(Breach::Unknown { line: number }));
    };
    let course = &mut courses[place];
    let breach = breach_of(course, number, line);
    if breach.is_none() {
        course.pass()?;
    }
    Ok(breach)
}

/// The number of the line behind these; lines count from 1.
fn number_behind(earlier: &[TraceLine]) -> u64
    ensures value { result ≡ length earlier.now + 1 }
    ensures few { result ≤ 2 ^ 63 }
{
    earlier.len() as u64 + 1
}

/// Whether a line doesn't come after the last of these.
fn is_disordered(earlier: &[TraceLine], line: &TraceLine) -> bool
    ensures { result ≡ is_disordered earlier.now line.now }
{
    match earlier.last() {
        None => false,
        Some(last) => line.time <= last.time,
    }
}

/// The place of the task with this name.
fn place_of(courses: &[Course], name: &[u8]) -> Option<usize>
    ensures { result ≡ position (λ course. same (judged course).task.name name.now) courses.now }
{
    courses
        .iter()
        .position(|course| course.task.name.bytes() == name)
}

/// What is wrong with a line as the task's next entry; its number counts from 1.
fn breach_of(course: &Course, number: u64, line: &TraceLine) -> Option<Breach>
    requires { Stands course.now }
    ensures { result ≡ option_and_then (entry_breach number (judged course.now).task line.now)
        (promise_at (judged course.now).does (place course.now)) }
{
    let coming = course.entry();
    if line.frame != coming.frame || !is_shown(course, coming.what, &line.what) {
        return Some(Breach::Entry { line: number });
    }
    window_breach(number, line.time, &coming)
}

/// What is wrong with the time of a line that shows this entry.
fn window_breach(number: u64, time: u64, coming: &Coming) -> Option<Breach>
    ensures { result ≡ (if nat_lt time coming.now.earliest then Some (Early number)
        else (if is_over coming.now.latest time then Some (Overdue number) else None)) }
{
    let time = u128::from(time);
    if time < coming.earliest {
        return Some(Breach::Early { line: number });
    }
    match coming.latest {
        Some(latest) if latest < time => Some(Breach::Overdue { line: number }),
        _ => None,
    }
}

/// Whether the name is that of the port of this number.
fn is_port(names: &[Name], number: u32, name: &Name) -> bool
    ensures { result ≡ same name.now (slice_index_or names.now number []) }
{
    match names.get(number as usize) {
        None => name.bytes().is_empty(),
        Some(own) => name.bytes() == own.bytes(),
    }
}

/// Whether the line shows what the task's next entry does.
fn is_shown(course: &Course, what: ComingWhat, line: &LineWhat) -> bool
    requires { Stands course.now }
    ensures { result ≡ shows_same line.now (shown_of (judged course.now).task
        (shown ((judged course.now).does.frames course.now.frame).state what)) }
{
    let task = course.task;
    match line {
        LineWhat::Receive { port, value } => match what {
            ComingWhat::Receive {
                port: number,
                value: taken,
            } => { is_port(task.inputs.as_slice(), number, port) && *value == taken }
            _ => false,
        },
        LineWhat::Send { port, value } => match what {
            ComingWhat::Send {
                port: number,
                value: sent,
            } => { is_port(task.outputs.as_slice(), number, port) && *value == sent }
            _ => false,
        },
        LineWhat::First => matches!(what, ComingWhat::First),
        LineWhat::End { state } => match what {
            ComingWhat::End => course.leaves(state.bytes()),
            _ => false,
        },
    }
}
