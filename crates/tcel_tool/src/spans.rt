ghost use Rattle.std.specs.Prelude.{◌≢◌, ◌≤◌, ◌^◌, IfOk, OnErr, OnOk, vec_capacity};
ghost use Rattle.tcel_core.specs.Plain.{plain_set};
ghost use Rattle.tcel_demand.specs.Sound.{AreSound};
ghost use Rattle.tcel_io.specs.InTurn.{AreCutOff, AreTaken};
ghost use Rattle.tcel_io.specs.Seen.{IsCutOff, IsTaken};
ghost use Rattle.tcel_tool.specs.Spans.{Advances, ArePutFor, span_line};

use crate::span_line::write_line;
use tcel_core::Set;
use tcel_demand::{Demand, TaskPlan};
use tcel_io::{Sink, SinkFault};

/// Ticks in a row that all serve one task, or none: the first begins at time `start`, the last ends at time `end`.
#[derive(Clone, Copy, Debug)]
pub(crate) struct Span {
    pub(crate) start: u64,
    pub(crate) end: u64,
    pub(crate) task: Option<usize>,
}

/// Puts the lines of the first so many ticks, one for each longest span, up to the first fault (docs/formats.md). It takes no memory.
pub(crate) fn put_spans<K: Sink>(
    set: &Set,
    plans: &[TaskPlan],
    ticks: u64,
    line: &mut Vec<u8>,
    out: &mut K,
) -> Result<(), SinkFault>
    requires sound { AreSound plans.now }
    requires short { ticks ≤ 10 ^ 12 }
    requires room { 75 ≤ vec_capacity line.old }
    ensures taken { OnOk result (ArePutFor AreTaken (plain_set set.now) plans.now 0 ticks (K.seen out.old) (K.seen out.new)) }
    ensures cut_off { OnErr result (ArePutFor AreCutOff (plain_set set.now) plans.now 0 ticks (K.seen out.old) (K.seen out.new)) }
{
    if ticks == 0 {
        return Ok(());
    }
    let mut schedule = Demand::new(plans);
    let mut span = Span {
        start: 0,
        end: 1,
        task: schedule.tick(),
    };
    while span.end < ticks {
        let task = schedule.tick();
        span = advance(set, span, task, line, out)?;
    }
    put_span(set, span, line, out)
}

/// The span one tick later, which serves this task. Where it serves another than the span, the span's line is put, and the next span begins.
fn advance<K: Sink>(
    set: &Set,
    span: Span,
    task: Option<usize>,
    line: &mut Vec<u8>,
    out: &mut K,
) -> Result<Span, SinkFault>
    requires short { span.end ≤ 10 ^ 12 }
    requires room { 75 ≤ vec_capacity line.old }
    ensures room { 75 ≤ vec_capacity line.new }
    ensures advances { IfOk result (λ next. Advances (plain_set set.now) span task next (K.seen out.old) (K.seen out.new)) }
    ensures other { OnErr result (task ≢ span.task) }
    ensures cut_off { OnErr result (IsCutOff (span_line (plain_set set.now) span) (K.seen out.old) (K.seen out.new)) }
{
    let end = span.end + 1;
    if task == span.task {
        return Ok(Span { end, ..span });
    }
    put_span(set, span, line, out)?;
    Ok(Span {
        start: span.end,
        end,
        task,
    })
}

fn put_span<K: Sink>(
    set: &Set,
    span: Span,
    line: &mut Vec<u8>,
    out: &mut K,
) -> Result<(), SinkFault>
    requires room { 75 ≤ vec_capacity line.old }
    ensures room { 75 ≤ vec_capacity line.new }
    ensures taken { OnOk result (IsTaken (span_line (plain_set set.now) span) (K.seen out.old) (K.seen out.new)) }
    ensures cut_off { OnErr result (IsCutOff (span_line (plain_set set.now) span) (K.seen out.old) (K.seen out.new)) }
{
    write_line(line, set, span);
    out.put(line)
}
