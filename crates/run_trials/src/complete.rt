//! A run whose ends do not fail.
ghost use Rattle.std.specs.Prelude.{◌≡◌, ◌≢◌, ◌≤◌, ◌<◌, IfOk, None, length};
ghost use Rattle.run_core.specs.Limits.{input_limit};
ghost use Rattle.run_core.specs.Run.{at_end, ending_of, task_of, taken_fault, taken_output};
ghost use Rattle.run_trials.specs.Whole.{IsWholeRun};

use fisb_wire::{Bytes, FaithfulSource, MemorySink, Numbers};
use run_core::{Actor, Status, run};
use std::alloc::{AllocError, Global};

/// Runs a command over the bytes, into a new sink with so much room. Where the whole output is
/// shorter than the room no end fails: the answer is the verdict on the whole input and the sink
/// has exactly its output, or memory was not found.
pub fn run_in_memory<A: Actor>(
    alloc: Global,
    input: Bytes,
    room: usize,
) -> Result<(Status, MemorySink), AllocError>
    ensures unfailed { length (taken_output (task_of A.work) input (ending_of input)) < room
        → IfOk result (λ ran. (ran.0 ≢ Status.ReadFault) × (ran.0 ≢ Status.WriteFault)) }
    ensures whole { length (taken_output (task_of A.work) input (ending_of input)) < room
        → IfOk result
        (λ ran. IsWholeRun (task_of A.work) (ending_of input) input ran.0 ran.1.bytes) }
    ensures done { length input ≤ input_limit → taken_fault (task_of A.work) input at_end ≡ None
        → length (taken_output (task_of A.work) input at_end) < room
        → IfOk result (λ ran. ran.0 ≢ Status.NoMemory → (ran.0 ≡ Status.Done)
        × (ran.1.bytes ≡ taken_output (task_of A.work) input at_end)) }
{
    let none = Numbers::of(Vec::new(alloc));
    let mut source = FaithfulSource::new(input);
    let mut sink = MemorySink::new(alloc, room, none)?;
    let status = run::<A, FaithfulSource, MemorySink>(alloc, &mut source, &mut sink);
    Ok((status, sink))
}
