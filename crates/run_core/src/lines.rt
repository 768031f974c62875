//! Acts on the lines after the table, one after another.
ghost use Rattle.std.specs.Prelude.{◌≡◌, ℕ, ◌+◌, ◌≤◌, ◌<◌, List, ◌∷◌, ◌++◌, length, take, Option};
ghost use Rattle.std.specs.Prelude.{None};
ghost use Rattle.std.specs.Io.KnownBytes.{IsAtEnd};
ghost use Rattle.run_core.specs.Acted.{reading};
ghost use Rattle.run_core.specs.Acting.{HasActedOn};
ghost use Rattle.run_core.specs.Limits.{ring_limit};
ghost use Rattle.run_core.specs.Reading.{IsWithin, newline_in};
ghost use Rattle.run_core.specs.Run.{Ends, ends, sink_end, HasRun, task_of};
ghost use Rattle.run_core.specs.Running.{IsAt};

use crate::acting::{LINE_LIMIT, act_on_front, act_on_line, refuse};
use crate::actor::Actor;
use crate::input::{Input, RING_LIMIT, Read};
use crate::status::Status;
use circular_buffer::HeapCircularBuffer;
use fisb_wire::{Sink, Source};
use refusal_core::Reason;
use std::alloc::Global;

/// Acts on the lines in the ring and on those that are still to come, of which the first has the
/// number.
pub(crate) fn act_on_lines<A: Actor, S: Source, K: Sink>(
    alloc: Global,
    mut actor: A,
    mut number: u64,
    mut input: Input,
    source: &mut S,
    sink: &mut K,
) -> Status
    requires spare { K.spare sink.old ≡ None }
    requires within { IsWithin input }
    requires count { number + length input.ring.items ≤ input.taken + 2 }
    ensures ran { (old : Ends) (table : List ℕ)
        → IsAt A.work table (λ past. A.stands table past actor) number old
        (ends (S.left source.old) (S.faults source.old) (K.written sink.old) (K.faults sink.old))
        input
        → HasRun (task_of A.work) old
        (ends (S.left source.new) (S.faults source.new) (K.written sink.new) (K.faults sink.new))
        result }
    ensures spare { K.spare sink.new ≡ None }
    ensures reach { K.reach sink.new ≡ K.reach sink.old }
{
    let mut may_end = true;
    loop {
        if let Some(end) = input.next_end(0, may_end) {
            if let Err(status) = act_on_next(alloc, &mut actor, number, &input.ring, end, sink) {
                return status;
            }
            input.drop_front(end + 1);
            number += 1;
            may_end = true;
            continue;
        }
        if input.ring.len() > LINE_LIMIT {
            return refuse::<A, K>(alloc, number, Reason::LineLong, sink);
        }
        match input.read_on(source) {
            Read::Line => may_end = true,
            Read::More => may_end = false,
            Read::End => return act_on_last(alloc, actor, number, input, sink),
            Read::Failed => return Status::ReadFault,
            Read::Full => return Status::TooLong,
        }
    }
}

/// Acts on the last line, which has no newline, unless nothing stands there.
fn act_on_last<A: Actor, K: Sink>(
    alloc: Global,
    mut actor: A,
    number: u64,
    input: Input,
    sink: &mut K,
) -> Status
    requires spare { K.spare sink.old ≡ None }
    requires within { IsWithin input }
    ensures ran { (old : Ends) (left : Option (List ℕ)) (reads : ℕ) (table : List ℕ)
        → IsAt A.work table (λ past. A.stands table past actor) number old
        (ends left reads (K.written sink.old) (K.faults sink.old)) input
        → IsAtEnd left → newline_in input.ring.items ≡ None
        → HasRun (task_of A.work) old (ends left reads (K.written sink.new) (K.faults sink.new))
        result }
    ensures spare { K.spare sink.new ≡ None }
    ensures reach { K.reach sink.new ≡ K.reach sink.old }
{
    let end = input.ring.len();
    if end == 0 {
        return Status::Done;
    }
    match act_on_next(alloc, &mut actor, number, &input.ring, end, sink) {
        Ok(()) => Status::Done,
        Err(status) => status,
    }
}

/// Acts on the line before an end of line in the ring. Only a line that goes on past the end of
/// the ring's block is copied, to be one slice.
fn act_on_next<A: Actor, K: Sink>(
    alloc: Global,
    actor: &mut A,
    number: u64,
    ring: &HeapCircularBuffer<u8>,
    end: usize,
    sink: &mut K,
) -> Result<(), Status>
    requires spare { K.spare sink.old ≡ None }
    requires end { end ≤ length ring.now.items }
    requires fits { end ≤ ring_limit }
    ensures acted { (table : List ℕ) (past : List (List ℕ)) → A.stands table past actor.old
        → HasActedOn A.work number (reading (A.work.told table) past (take end ring.now.items))
        (A.stands table (take end ring.now.items ∷ past) actor.new)
        (sink_end (K.written sink.old) (K.faults sink.old))
        (sink_end (K.written sink.new) (K.faults sink.new)) result }
    ensures spare { K.spare sink.new ≡ None }
    ensures reach { K.reach sink.new ≡ K.reach sink.old }
{
    let (front, back) = ring.as_slices();
    if end <= front.len() {
        return act_on_front(alloc, actor, number, front, end, sink);
    }
    let mut room = [0u8; RING_LIMIT];
    let line = &mut room[..end];
    copy_parts(front, back, line);
    act_on_line(alloc, actor, number, line, sink)
}

/// Copies bytes in two parts, as many as the line has.
fn copy_parts(front: &[u8], back: &[u8], line: &mut [u8])
    requires front { length front.now ≤ length line.old }
    requires back { length line.old ≤ length front.now + length back.now }
    ensures { line.new ≡ take (length line.old) (front.now ++ back.now) }
{
    let (first, second) = line.split_at_mut(front.len());
    first.copy_from_slice(front);
    let rest = back.split_at(second.len()).0;
    second.copy_from_slice(rest);
}
