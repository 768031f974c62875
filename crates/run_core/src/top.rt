//! The run.
ghost use Rattle.std.specs.Prelude.{◌≡◌, ℕ, ◌+◌, ◌≤◌, List, [], Option, None, length, take};
ghost use Rattle.std.specs.Io.KnownBytes.{IsAtEnd};
ghost use Rattle.fisb_wire.specs.Faults.{Rose};
ghost use Rattle.run_core.specs.Actor.{HasOpened};
ghost use Rattle.run_core.specs.Reading.{IsWithin};
ghost use Rattle.run_core.specs.Run.{Ends, HasRun, IsComplete, IsDecided, ends, task_of};
ghost use Rattle.run_core.specs.Running.{IsFilled};
ghost use Rattle.run_core.specs.Searched.{IsTable, IsLast};

use crate::acting::refuse;
use crate::actor::Actor;
use crate::input::Input;
use crate::laws::{runs_complete, runs_decide, stable_tasks};
use crate::lines::act_on_lines;
use crate::search::{TableEnd, search};
use crate::status::Status;
use crate::stop::Stop;
use fisb_wire::{Sink, Source};
use refusal_core::Reason;
use std::alloc::Global;

/// Runs a command: reads its table, and acts on each line as soon as its end was read.
pub fn run<A: Actor, S: Source, K: Sink>(alloc: Global, source: &mut S, sink: &mut K) -> Status
    requires { K.spare sink.old ≡ None }
    ensures ran { HasRun (task_of A.work)
        (ends (S.left source.old) (S.faults source.old) (K.written sink.old) (K.faults sink.old))
        (ends (S.left source.new) (S.faults source.new) (K.written sink.new) (K.faults sink.new))
        result }
    ensures decided { IsDecided (task_of A.work)
        (ends (S.left source.old) (S.faults source.old) (K.written sink.old) (K.faults sink.old))
        (ends (S.left source.new) (S.faults source.new) (K.written sink.new) (K.faults sink.new))
        result }
    ensures complete { IsComplete (task_of A.work) (K.reach sink.old)
        (ends (S.left source.old) (S.faults source.old) (K.written sink.old) (K.faults sink.old))
        (ends (S.left source.new) (S.faults source.new) (K.written sink.new) (K.faults sink.new))
        result }
    ensures read_fault { result ≡ Status.ReadFault
        → Rose (S.faults source.old) (S.faults source.new) }
    ensures write_fault { result ≡ Status.WriteFault
        → Rose (K.faults sink.old) (K.faults sink.new) }
    ensures source_faults { S.faults source.old ≤ S.faults source.new }
    ensures sink_faults { K.faults sink.old ≤ K.faults sink.new }
    ensures spare { K.spare sink.new ≡ None }
    ensures reach { K.reach sink.new ≡ K.reach sink.old }
{
    stable_tasks();
    runs_decide();
    runs_complete();
    run_through::<A, S, K>(alloc, source, sink)
}

/// The run, whose answer is not yet compared with the whole input.
fn run_through<A: Actor, S: Source, K: Sink>(alloc: Global, source: &mut S, sink: &mut K) -> Status
    requires { K.spare sink.old ≡ None }
    ensures ran { HasRun (task_of A.work)
        (ends (S.left source.old) (S.faults source.old) (K.written sink.old) (K.faults sink.old))
        (ends (S.left source.new) (S.faults source.new) (K.written sink.new) (K.faults sink.new))
        result }
    ensures spare { K.spare sink.new ≡ None }
    ensures reach { K.reach sink.new ≡ K.reach sink.old }
{
    let Ok(mut input) = Input::new(alloc) else {
        return Status::NoMemory;
    };
    match search(source, &mut input) {
        TableEnd::Found { size, number } => {
            start::<A, S, K>(alloc, input, size, number, source, sink)
        }
        TableEnd::Last { size, number } => start_last::<A, K>(alloc, input, size, number, sink),
        TableEnd::Missing => refuse::<A, K>(alloc, 1, Reason::NoTable, sink),
        TableEnd::Long => refuse::<A, K>(alloc, 1, Reason::TableLong, sink),
        TableEnd::Failed => Status::ReadFault,
    }
}

/// Makes the actor from the table, and acts on the lines after it.
fn start<A: Actor, S: Source, K: Sink>(
    alloc: Global,
    mut input: Input,
    size: usize,
    number: u64,
    source: &mut S,
    sink: &mut K,
) -> Status
    requires spare { K.spare sink.old ≡ None }
    requires within { IsWithin input }
    requires fits { size + 4 ≤ length input.ring.items }
    requires taken { input.taken ≡ length input.ring.items }
    requires count { number ≤ size + 1 }
    ensures ran { (old : Ends) → IsFilled old
        (ends (S.left source.old) (S.faults source.old) (K.written sink.old) (K.faults sink.old))
        input
        → IsTable input.ring.items size number
        → HasRun (task_of A.work) old
        (ends (S.left source.new) (S.faults source.new) (K.written sink.new) (K.faults sink.new))
        result }
    ensures spare { K.spare sink.new ≡ None }
    ensures reach { K.reach sink.new ≡ K.reach sink.old }
{
    let bytes = input.ring.make_contiguous();
    match open::<A>(alloc, bytes, size) {
        Ok(actor) => {
            input.drop_front(size + 4);
            act_on_lines(alloc, actor, number + 1, input, source, sink)
        }
        Err(Stop::Refused(reason)) => refuse::<A, K>(alloc, number, reason, sink),
        Err(Stop::NoMemory) => Status::NoMemory,
    }
}

/// Makes the actor from a table after which the input ended.
fn start_last<A: Actor, K: Sink>(
    alloc: Global,
    mut input: Input,
    size: usize,
    number: u64,
    sink: &mut K,
) -> Status
    requires spare { K.spare sink.old ≡ None }
    requires within { IsWithin input }
    requires fits { size ≤ length input.ring.items }
    ensures ran { (old : Ends) (left : Option (List ℕ)) (reads : ℕ)
        → IsFilled old (ends left reads (K.written sink.old) (K.faults sink.old)) input
        → IsAtEnd left → IsLast input.ring.items size number
        → HasRun (task_of A.work) old (ends left reads (K.written sink.new) (K.faults sink.new))
        result }
    ensures spare { K.spare sink.new ≡ None }
    ensures reach { K.reach sink.new ≡ K.reach sink.old }
{
    let bytes = input.ring.make_contiguous();
    match open::<A>(alloc, bytes, size) {
        Ok(_) => Status::Done,
        Err(Stop::Refused(reason)) => refuse::<A, K>(alloc, number, reason, sink),
        Err(Stop::NoMemory) => Status::NoMemory,
    }
}

/// Makes the actor from the first bytes.
fn open<A: Actor>(alloc: Global, bytes: &[u8], size: usize) -> Result<A, Stop>
    requires { size ≤ length bytes.now }
    ensures { HasOpened (A.work.opened (take size bytes.now)) (A.stands (take size bytes.now) [])
        result }
{
    A::new(alloc, bytes.split_at(size).0)
}
