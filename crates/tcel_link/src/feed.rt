ghost use Rattle.std.specs.Prelude.{◌≡◌, ◌<◌, ◌++◌, [], ◌∷◌, All, IfOk, None, length, map, pos};
ghost use Rattle.tcel_core.specs.Plain.{plain_body};
ghost use Rattle.tcel_link.specs.Feeds.{LeadsWithin, advanced, all_given, begun, carried, ended, given, heard, is_due, last_of, told};
ghost use Rattle.tcel_link.specs.Linked.{received, sent};
ghost use Rattle.tcel_link.specs.Receives.{receives};

use crate::link::Link;
use crate::receives::push_words;
use std::alloc::Global;
use std::collections::VecDeque;
use tcel_core::{Body, Event, EventKind, Inputs};
use tcel_num::NoMemory;

/// The last value that a frame sent to an output, and the frame's deadline.
#[derive(Clone, Copy, Debug)]
pub(crate) struct Sent {
    pub(crate) due: u64,
    pub(crate) value: i64,
}

/// A link on its way through the frames.
#[derive(Debug, Drop)]
pub(crate) struct Feed {
    pub(crate) link: Link,
    /// The last value whose deadline has come, and 0 before.
    sample: i64,
    /// The values whose deadline hasn't come, in the order of their deadlines.
    pending: VecDeque<Sent>,
    /// Room for the sample, as often as a frame may receive it.
    words: Vec<i64>,
    /// What the input has received.
    pub(crate) received: Vec<i64>,
}

impl Feed {
    /// A link before any frame, to a task with this body.
    pub(crate) fn new(alloc: Global, link: Link, body: &Body) -> Result<Feed, NoMemory>
        ensures { IfOk result (λ feed. carried feed ≡ record {
          link = link;
          sample = pos 0;
          pending = [];
          copies = receives (plain_body body.now) link.input;
          received = [];
        }) }
    {
        let mut words = Vec::new(alloc);
        push_words(body, link.input, &mut words)?;
        Ok(Feed {
            link,
            sample: 0,
            pending: VecDeque::new(alloc),
            words,
            received: Vec::new(alloc),
        })
    }

    /// Where the link leads to this task, gives the input its sample for a frame that is released at this time.
    pub(crate) fn give(
        &mut self,
        number: u32,
        time: u64,
        inputs: &mut Inputs,
    ) -> Result<(), NoMemory>
        requires { self.old.link.to ≡ number → self.old.link.input < length inputs.old }
        ensures feed { IfOk result (λ _. carried self.new ≡ begun number time (carried self.old)) }
        ensures inputs { IfOk result (λ _. inputs.new ≡ given number time (carried self.old) inputs.old) }
    {
        if self.link.to != number {
            return Ok(());
        }
        self.advance(time);
        self.words.as_mut_slice().fill(self.sample);
        inputs.set(self.link.input as usize, self.words.as_slice())
    }

    /// Where the link leads to this task, takes what its frame received.
    pub(crate) fn hear(&mut self, number: u32, events: &[Event]) -> Result<(), NoMemory>
        ensures { IfOk result (λ _. carried self.new ≡ heard number events.now (carried self.old)) }
    {
        if self.link.to != number {
            return Ok(());
        }
        push_all_received(events, self.link.input, &mut self.received)
    }

    /// Where the link leads from this task, holds the last value back that its frame, released at this time, sent.
    pub(crate) fn tell(
        &mut self,
        number: u32,
        time: u64,
        due: u64,
        events: &[Event],
    ) -> Result<(), NoMemory>
        ensures { IfOk result (λ _. carried self.new ≡ told number time due events.now (carried self.old)) }
    {
        if self.link.from != number {
            return Ok(());
        }
        self.advance(time);
        if let Some(value) = last_sent(events, self.link.output) {
            self.pending.push_back(Sent { due, value })?;
        }
        Ok(())
    }

    /// Moves on to a time.
    fn advance(&mut self, time: u64)
        ensures { carried self.new ≡ advanced time (carried self.old) }
    {
        while is_due(&self.pending, time) {
            if let Some(sent) = self.pending.pop_front() {
                self.sample = sent.value;
            }
        }
    }
}

fn is_due(pending: &VecDeque<Sent>, time: u64) -> bool
    ensures { result ≡ is_due time pending.now.items }
{
    match pending.front() {
        None => false,
        Some(first) => first.due <= time,
    }
}

/// Appends the values that are received from an input.
fn push_all_received(events: &[Event], input: u32, values: &mut Vec<i64>) -> Result<(), NoMemory>
    ensures { IfOk result (λ _. values.new.items ≡ values.old.items ++ received input events.now) }
{
    for event in events {
        push_received(*event, input, values)?;
    }
    Ok(())
}

/// Appends the value of an event that receives from an input.
fn push_received(event: Event, input: u32, values: &mut Vec<i64>) -> Result<(), NoMemory>
    ensures { IfOk result (λ _. values.new.items ≡ values.old.items ++ received input (event ∷ [])) }
{
    if event.kind == EventKind::Receive && event.port == input {
        values.push(event.value)?;
    }
    Ok(())
}

/// The last value that is sent to an output.
fn last_sent(events: &[Event], output: u32) -> Option<i64>
    ensures { result ≡ last_of None (sent output events.now) }
{
    let mut last = None;
    for event in events {
        last = later(last, *event, output);
    }
    last
}

/// The value of an event that sends to an output, or the one before.
fn later(last: Option<i64>, event: Event, output: u32) -> Option<i64>
    ensures { result ≡ last_of last (sent output (event ∷ [])) }
{
    if event.kind == EventKind::Send && event.port == output {
        Some(event.value)
    } else {
        last
    }
}

/// A frame of a task begins: its inputs to which links lead are given their samples.
pub(crate) fn give_all(
    feeds: &mut [Feed],
    number: u32,
    time: u64,
    inputs: &mut Inputs,
) -> Result<(), NoMemory>
    requires { All (LeadsWithin number (length inputs.old)) (map carried feeds.old) }
    ensures feeds { IfOk result (λ _. map carried feeds.new ≡ map (begun number time) (map carried feeds.old)) }
    ensures inputs { IfOk result (λ _. inputs.new ≡ all_given number time (map carried feeds.old) inputs.old) }
{
    for feed in feeds.iter_mut() {
        feed.give(number, time, inputs)?;
    }
    Ok(())
}

/// A frame of a task ended with these events, of which the values that it sent are due at a time.
pub(crate) fn tell_all(
    feeds: &mut [Feed],
    number: u32,
    time: u64,
    due: u64,
    events: &[Event],
) -> Result<(), NoMemory>
    ensures { IfOk result (λ _. map carried feeds.new ≡ map (ended number time due events.now) (map carried feeds.old)) }
{
    for feed in feeds.iter_mut() {
        feed.hear(number, events)?;
        feed.tell(number, time, due, events)?;
    }
    Ok(())
}
