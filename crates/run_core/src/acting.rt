//! Acts on one line, and writes what it gives or its refusal.
ghost use Rattle.std.specs.Prelude.{◌≡◌, ℕ, ◌≤◌, List, ◌∷◌, None, Err, Result, length, take};
ghost use Rattle.refusal_core.specs.declared.reason.Reason.{Reason as AnyReason};
ghost use Rattle.run_core.specs.Acted.{reading};
ghost use Rattle.run_core.specs.Acting.{HasStoppedOn, HasActedOn};
ghost use Rattle.run_core.specs.Run.{sink_end};

use crate::actor::{Actor, Given};
use crate::output::write_all;
use crate::status::Status;
use crate::stop::Stop;
use fisb_wire::{Failed, Sink};
use refusal_core::Reason;
use std::alloc::Global;

/// The most bytes of a line after the table.
pub(crate) const LINE_LIMIT: usize = 32_768;

/// Acts on a line, and writes what it gives. An `Err` says why the run stops there.
pub(crate) fn act_on_line<A: Actor, K: Sink>(
    alloc: Global,
    actor: &mut A,
    number: u64,
    line: &[u8],
    sink: &mut K,
) -> Result<(), Status>
    requires { K.spare sink.old ≡ None }
    ensures acted { (table : List ℕ) (past : List (List ℕ)) → A.stands table past actor.old
        → HasActedOn A.work number (reading (A.work.told table) past line.now)
        (A.stands table (line.now ∷ past) actor.new)
        (sink_end (K.written sink.old) (K.faults sink.old))
        (sink_end (K.written sink.new) (K.faults sink.new)) result }
    ensures spare { K.spare sink.new ≡ None }
    ensures reach { K.reach sink.new ≡ K.reach sink.old }
{
    if line.len() > LINE_LIMIT {
        return Err(refuse::<A, K>(alloc, number, Reason::LineLong, sink));
    }
    let given = match actor.act(alloc, line) {
        Ok(given) => given,
        Err(Stop::Refused(reason)) => {
            return Err(refuse::<A, K>(alloc, number, reason, sink));
        }
        Err(Stop::NoMemory) => return Err(Status::NoMemory),
    };
    let Ok(text) = given.print(alloc) else {
        return Err(Status::NoMemory);
    };
    match write_all(sink, text.all()) {
        Ok(()) => Ok(()),
        Err(Failed) => Err(Status::WriteFault),
    }
}

/// Acts on the line before an end of line.
pub(crate) fn act_on_front<A: Actor, K: Sink>(
    alloc: Global,
    actor: &mut A,
    number: u64,
    bytes: &[u8],
    end: usize,
    sink: &mut K,
) -> Result<(), Status>
    requires spare { K.spare sink.old ≡ None }
    requires end { end ≤ length bytes.now }
    ensures acted { (table : List ℕ) (past : List (List ℕ)) → A.stands table past actor.old
        → HasActedOn A.work number (reading (A.work.told table) past (take end bytes.now))
        (A.stands table (take end bytes.now ∷ past) actor.new)
        (sink_end (K.written sink.old) (K.faults sink.old))
        (sink_end (K.written sink.new) (K.faults sink.new)) result }
    ensures spare { K.spare sink.new ≡ None }
    ensures reach { K.reach sink.new ≡ K.reach sink.old }
{
    act_on_line(alloc, actor, number, bytes.split_at(end).0, sink)
}

/// Writes the refusal of a line, and answers it, or why it could not be written.
pub(crate) fn refuse<A: Actor, K: Sink>(
    alloc: Global,
    number: u64,
    reason: Reason,
    sink: &mut K,
) -> Status
    requires { K.spare sink.old ≡ None }
    ensures refused { (read : Result (List ℕ) AnyReason) → read ≡ Err reason
        → HasStoppedOn A.work number read
        (sink_end (K.written sink.old) (K.faults sink.old))
        (sink_end (K.written sink.new) (K.faults sink.new)) result }
    ensures spare { K.spare sink.new ≡ None }
    ensures reach { K.reach sink.new ≡ K.reach sink.old }
{
    let Ok(text) = A::refusal(alloc, number, &reason) else {
        return Status::NoMemory;
    };
    match write_all(sink, text.all()) {
        Ok(()) => Status::Refused {
            line: number,
            reason,
        },
        Err(Failed) => Status::WriteFault,
    }
}
