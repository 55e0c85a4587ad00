ghost use Rattle.std.specs.Prelude.{◌≡◌, [], ◌∷◌, codes, map, string_bytes};
ghost use Rattle.std.specs.Fmt.{decimal};
ghost use Rattle.tcel_io.specs.InTurn.{ArePut};
ghost use Rattle.tcel_tool.specs.FaultLine.{check_text, count_pieces, fault_pieces, flaw_pieces, flaw_text, image_pieces};
ghost use Rattle.tcel_tool.specs.FaultLine.{late_pieces, limit_pieces, limit_text, link_pieces, point_number, point_word};
ghost use Rattle.tcel_tool.specs.FaultLine.{program_pieces, program_text, script_pieces, target_pieces};
ghost use Rattle.tcel_tool.specs.FaultLine.{breach_pieces, trace_pieces};
ghost use Rattle.tcel_judge.specs.declared.verdict.Breach.TheVariants.{Missing};

use crate::stages::word_at;
use crate::status::{CountKind, LimitFault, ProgramKind, Status};
use itoa::Buffer;
use tcel_check::{CheckKind, LimitKind};
use tcel_demand::{Late, PointName};
use tcel_image::{Flaw, FlawKind, ImageFail};
use tcel_io::Sink;
use tcel_judge::{Breach, Due};
use tcel_link::LinkFail;
use tcel_num::At;
use tcel_script::ScriptFail;
use tcel_target::TargetFail;
use tcel_trace::TraceFail;

/// Puts the fault line of the status (docs/commands.md), in pieces: the texts between words, names and numbers, and these. `task` is the name of the
/// task that the status tells, where it tells one. After a fault nothing more is put.
pub(crate) fn put_fault_line<K: Sink>(words: &[String], status: &Status, task: &[u8], err: &mut K)
    ensures { ArePut (fault_pieces (map string_bytes words.now) status.now task.now) (K.seen err.old) (K.seen err.new) }
{
    match status {
        Status::Ok => put_all(&[], err),
        Status::Late(late) => put_late(*late, task, err),
        Status::Overload { demand, hyper } => put_all(
            &[
                b"rejected: overload demand ",
                Buffer::new().format(*demand).as_bytes(),
                b" hyperperiod ",
                Buffer::new().format(*hyper).as_bytes(),
                b"\n",
            ],
            err,
        ),
        Status::Program { kind, at } => put_program(*kind, *at, err),
        Status::Limit(fault) => put_limit(words, *fault, task, err),
        Status::Words => put_all(&[b"words: no command has this form\n"], err),
        Status::ReadFault { word } => put_all(
            &[b"read fault: ", word_at(words, *word).as_bytes(), b"\n"],
            err,
        ),
        Status::WriteFault => put_all(&[b"write fault\n"], err),
        Status::NoMemory => put_all(&[b"no memory\n"], err),
        Status::Target(fail) => put_target_fail(fail, err),
        Status::Image(fail) => put_image_fail(*fail, err),
        Status::Flaw(flaw) => put_flaw(*flaw, err),
        Status::Script(fail) => put_script_fail(*fail, err),
        Status::Breach(breach) => put_breach(*breach, task, err),
        Status::Trace(fail) => put_trace_fail(*fail, err),
        Status::Link(fail) => put_link_fail(*fail, err),
    }
}

/// Puts a late point of a task.
fn put_late<K: Sink>(late: Late, task: &[u8], err: &mut K)
    ensures { ArePut (late_pieces late task.now) (K.seen err.old) (K.seen err.new) }
{
    match late.name {
        PointName::Frame => put_late_point(late, task, b"frame", b"", err),
        PointName::Before(number) => put_late_point(
            late,
            task,
            b"before ",
            Buffer::new().format(number).as_bytes(),
            err,
        ),
        PointName::Within(number) => put_late_point(
            late,
            task,
            b"within ",
            Buffer::new().format(number).as_bytes(),
            err,
        ),
    }
}

/// Puts a late point of a task, of which the word and the number are these.
fn put_late_point<'a, K: Sink>(
    late: Late,
    task: &'a [u8],
    word: &'a [u8],
    number: &'a [u8],
    err: &mut K,
)
    requires word { word.now ≡ point_word late.name }
    requires number { number.now ≡ point_number late.name }
    ensures { ArePut (late_pieces late task.now) (K.seen err.old) (K.seen err.new) }
{
    put_all(
        &[
            b"rejected: late task ",
            task,
            b" frame ",
            Buffer::new().format(late.frame).as_bytes(),
            b" point ",
            word,
            number,
            b" response ",
            Buffer::new().format(late.response).as_bytes(),
            b" bound ",
            Buffer::new().format(late.bound).as_bytes(),
            b"\n",
        ],
        err,
    )
}

fn put_limit<K: Sink>(words: &[String], fault: LimitFault, task: &[u8], err: &mut K)
    ensures { ArePut (limit_pieces (map string_bytes words.now) fault task.now) (K.seen err.old) (K.seen err.new) }
{
    match fault {
        LimitFault::Bytes { word, limit } => put_all(
            &[
                b"limit: bytes of ",
                word_at(words, word).as_bytes(),
                b" above ",
                Buffer::new().format(limit).as_bytes(),
                b"\n",
            ],
            err,
        ),
        LimitFault::Count { kind, value } => put_count(kind, value, err),
        LimitFault::Nesting { at } => put_place(b"limit: nesting above 32 at ", at, err),
        LimitFault::Operators { at } => put_place(b"limit: operators above 64 at ", at, err),
        LimitFault::Placed { kind, at } => put_place(limit_text(kind), at, err),
        LimitFault::Cells { task: _, words } => put_task(
            b"limit: cells ",
            words,
            b" above 65536 in task ",
            task,
            err,
        ),
        LimitFault::Cycles { task: _, cycles } => put_task(
            b"limit: cycles ",
            cycles,
            b" above 1000000000 in task ",
            task,
            err,
        ),
        LimitFault::Hyper { task: _ } => put_all(
            &[
                b"limit: hyperperiod above 1000000000000 at task ",
                task,
                b"\n",
            ],
            err,
        ),
        LimitFault::Frames { frames } => {
            put_number(b"limit: frames ", frames, b" above 1000000\n", err)
        }
    }
}

fn put_count<K: Sink>(kind: CountKind, value: u64, err: &mut K)
    ensures { ArePut (count_pieces kind value) (K.seen err.old) (K.seen err.new) }
{
    match kind {
        CountKind::Ticks => put_number(b"limit: ticks ", value, b" above 10000000\n", err),
        CountKind::MeanFrames => put_number(b"limit: mean frames ", value, b" above 10000\n", err),
        CountKind::MadeTasks => put_number(b"limit: made tasks ", value, b" above 16\n", err),
        CountKind::FewestTasks => put_number(b"limit: fewest tasks ", value, b" above 12\n", err),
    }
}

fn limit_text(kind: LimitKind) -> &'static [u8]
    ensures { result.now ≡ limit_text kind }
{
    match kind {
        LimitKind::Tasks => b"limit: tasks above 16 at ",
        LimitKind::Variables => b"limit: variables above 256 at ",
        LimitKind::Words => b"limit: words above 4096 at ",
        LimitKind::Nodes => b"limit: nodes above 4000 at ",
        LimitKind::Windows => b"limit: windows above 31 at ",
    }
}

/// Puts a number that a task has too high.
fn put_task<'a, K: Sink>(
    before: &'a [u8],
    number: u64,
    between: &'a [u8],
    task: &'a [u8],
    err: &mut K,
)
    ensures { ArePut (before.now ∷ decimal number ∷ between.now ∷ task.now ∷ codes "\n" ∷ []) (K.seen err.old) (K.seen err.new) }
{
    put_all(
        &[
            before,
            Buffer::new().format(number).as_bytes(),
            between,
            task,
            b"\n",
        ],
        err,
    )
}

/// Puts a place behind a text.
fn put_place<K: Sink>(before: &[u8], at: At, err: &mut K)
    ensures { ArePut (before.now ∷ decimal at.line ∷ codes ":" ∷ decimal at.column ∷ codes "\n" ∷ []) (K.seen err.old) (K.seen err.new) }
{
    put_all(
        &[
            before,
            Buffer::new().format(at.line).as_bytes(),
            b":",
            Buffer::new().format(at.column).as_bytes(),
            b"\n",
        ],
        err,
    )
}

fn put_program<K: Sink>(kind: ProgramKind, at: At, err: &mut K)
    ensures { ArePut (program_pieces kind at) (K.seen err.old) (K.seen err.new) }
{
    put_all(
        &[
            b"program ",
            Buffer::new().format(at.line).as_bytes(),
            b":",
            Buffer::new().format(at.column).as_bytes(),
            b": ",
            program_text(kind),
            b"\n",
        ],
        err,
    )
}

fn program_text(kind: ProgramKind) -> &'static [u8]
    ensures { result.now ≡ program_text kind }
{
    match kind {
        ProgramKind::BadByte => b"bad byte",
        ProgramKind::BadNumber => b"bad number",
        ProgramKind::NameTooLong => b"name too long",
        ProgramKind::Unexpected => b"unexpected token",
        ProgramKind::Check(kind) => check_text(kind),
    }
}

fn check_text(kind: CheckKind) -> &'static [u8]
    ensures { result.now ≡ check_text kind }
{
    match kind {
        CheckKind::Twice => b"declared twice",
        CheckKind::Unknown => b"unknown name",
        CheckKind::WrongType => b"wrong type",
        CheckKind::NotAPort => b"not a port of this kind",
        CheckKind::WindowInLoop => b"window in a loop",
        CheckKind::LoopDepth => b"loops too deep",
        CheckKind::SamePriority => b"same priority",
        CheckKind::BadBound => b"bound out of range",
    }
}

/// Puts a number between two texts.
fn put_number<K: Sink>(before: &[u8], number: u64, after: &[u8], err: &mut K)
    ensures { ArePut (before.now ∷ decimal number ∷ after.now ∷ []) (K.seen err.old) (K.seen err.new) }
{
    put_all(
        &[before, Buffer::new().format(number).as_bytes(), after],
        err,
    )
}

fn put_target_fail<K: Sink>(fail: &TargetFail, err: &mut K)
    ensures { ArePut (target_pieces fail.now) (K.seen err.old) (K.seen err.new) }
{
    match fail {
        TargetFail::NotToml => put_all(&[b"target: not toml\n"], err),
        TargetFail::Strange { key } => put_all(&[b"target: strange ", key.bytes(), b"\n"], err),
        TargetFail::Missing { key } => put_all(
            &[b"target: missing ", key.text().as_bytes(), b"\n"],
            err,
        ),
        TargetFail::Range { key } => put_all(
            &[b"target: range ", key.text().as_bytes(), b"\n"],
            err,
        ),
        TargetFail::NoMemory => put_all(&[b"no memory\n"], err),
    }
}

fn put_image_fail<K: Sink>(fail: ImageFail, err: &mut K)
    ensures { ArePut (image_pieces fail) (K.seen err.old) (K.seen err.new) }
{
    match fail {
        ImageFail::BadMagic => put_all(&[b"image: bad magic\n"], err),
        ImageFail::Short { at } => put_number(b"image: short at ", at as u64, b"\n", err),
        ImageFail::BadField { at } => put_number(b"image: bad field at ", at as u64, b"\n", err),
        ImageFail::Extra { at } => put_number(b"image: extra at ", at as u64, b"\n", err),
        ImageFail::NoMemory => put_all(&[b"no memory\n"], err),
    }
}

fn put_flaw<K: Sink>(flaw: Flaw, err: &mut K)
    ensures { ArePut (flaw_pieces flaw) (K.seen err.old) (K.seen err.new) }
{
    put_all(
        &[
            b"image: ",
            flaw_text(flaw.kind),
            b" task ",
            Buffer::new().format(flaw.task).as_bytes(),
            b" pc ",
            Buffer::new().format(flaw.pc).as_bytes(),
            b"\n",
        ],
        err,
    )
}

fn flaw_text(kind: FlawKind) -> &'static [u8]
    ensures { result.now ≡ flaw_text kind }
{
    match kind {
        FlawKind::BadPeriod => b"bad period",
        FlawKind::SameName => b"same name",
        FlawKind::JumpOut => b"jump out",
        FlawKind::BadCell => b"bad cell",
        FlawKind::BadPort => b"bad port",
        FlawKind::BadDepth => b"bad depth",
        FlawKind::FallsOff => b"falls off",
    }
}

fn put_script_fail<K: Sink>(fail: ScriptFail, err: &mut K)
    ensures { ArePut (script_pieces fail) (K.seen err.old) (K.seen err.new) }
{
    match fail {
        ScriptFail::BadLine { line } => put_number(
            b"script ",
            u64::from(line),
            b": bad line\n",
            err,
        ),
        ScriptFail::NoPort { line } => put_number(b"script ", u64::from(line), b": no port\n", err),
        ScriptFail::PortTwice { line } => put_number(
            b"script ",
            u64::from(line),
            b": port twice\n",
            err,
        ),
        ScriptFail::Number { line } => put_number(b"script ", u64::from(line), b": number\n", err),
        ScriptFail::NoMemory => put_all(&[b"no memory\n"], err),
    }
}

fn put_breach<K: Sink>(breach: Breach, task: &[u8], err: &mut K)
    ensures { ArePut (breach_pieces breach task.now) (K.seen err.old) (K.seen err.new) }
{
    match breach {
        Breach::Order { line } => put_number(b"trace ", line, b": time out of order\n", err),
        Breach::Unknown { line } => put_number(b"trace ", line, b": unknown task\n", err),
        Breach::Entry { line } => put_number(b"trace ", line, b": wrong entry\n", err),
        Breach::Early { line } => put_number(b"trace ", line, b": early\n", err),
        Breach::Overdue { line } => put_number(b"trace ", line, b": overdue\n", err),
        Breach::Missing {
            task: number,
            frame,
            what,
        } => put_missing(number, frame, what, task, err),
    }
}

/// Puts an entry that is missing of a frame of the task with this number and this name.
fn put_missing<K: Sink>(number: u32, frame: u64, what: Due, task: &[u8], err: &mut K)
    ensures { ArePut (breach_pieces (Missing number frame what) task.now) (K.seen err.old) (K.seen err.new) }
{
    match what {
        Due::Event { number: event } => put_all(
            &[
                b"trace: missing event ",
                Buffer::new().format(event).as_bytes(),
                b" of frame ",
                Buffer::new().format(frame).as_bytes(),
                b" of task ",
                task,
                b"\n",
            ],
            err,
        ),
        Due::First => put_task(
            b"trace: missing first of frame ",
            frame,
            b" of task ",
            task,
            err,
        ),
        Due::End => put_task(
            b"trace: missing end of frame ",
            frame,
            b" of task ",
            task,
            err,
        ),
    }
}

fn put_trace_fail<K: Sink>(fail: TraceFail, err: &mut K)
    ensures { ArePut (trace_pieces fail) (K.seen err.old) (K.seen err.new) }
{
    match fail {
        TraceFail::BadTrace { line } => put_number(
            b"trace ",
            u64::from(line),
            b": bad line\n",
            err,
        ),
        TraceFail::NoMemory => put_all(&[b"no memory\n"], err),
    }
}

fn put_link_fail<K: Sink>(fail: LinkFail, err: &mut K)
    ensures { ArePut (link_pieces fail) (K.seen err.old) (K.seen err.new) }
{
    match fail {
        LinkFail::BadLine { line } => put_number(b"links ", u64::from(line), b": bad line\n", err),
        LinkFail::NoOutput { line } => put_number(
            b"links ",
            u64::from(line),
            b": no output\n",
            err,
        ),
        LinkFail::NoInput { line } => put_number(b"links ", u64::from(line), b": no input\n", err),
        LinkFail::InputTwice { line } => put_number(
            b"links ",
            u64::from(line),
            b": input twice\n",
            err,
        ),
        LinkFail::InLoop { line } => put_number(
            b"links ",
            u64::from(line),
            b": receive in a loop\n",
            err,
        ),
        LinkFail::NoMemory => put_all(&[b"no memory\n"], err),
    }
}

/// Puts the pieces up to the first fault.
fn put_all<K: Sink>(pieces: &[&[u8]], sink: &mut K)
    ensures { ArePut (map (λ piece. piece.now) pieces.now) (K.seen sink.old) (K.seen sink.new) }
{
    let Some((first, rest)) = pieces.split_first() else {
        return;
    };
    match sink.put(*first) {
        Ok(()) => put_all(rest, sink),
        Err(_) => {}
    }
}
