//! The top call.
ghost use Rattle.std.specs.Prelude.{◌≡◌, ℕ, ◌≤◌, ◌↔◌, None, Some, map, string_bytes};
ghost use Rattle.fisb_wire.specs.Faults.{Rose};
ghost use Rattle.run_core.specs.Run.{HasRun, IsComplete, IsDecided, ends, sink_end, task_of};
ghost use Rattle.fisb_app.specs.Command.{command_named};
ghost use Rattle.fisb_app.specs.declared.command.Command.{Command};
ghost use Rattle.fisb_app.specs.Make.{HasMade, IsMadeWhole};
ghost use Rattle.fisb_app.specs.Origin.{IsOrigin, Origin};
ghost use Rattle.fisb_app.specs.Work.{gdl_work, ground_work, link_work, origin_work, promised_work};
ghost use Rattle.fisb_app.specs.Work.{receive_work};

use crate::command::{Command, command_of};
use crate::ear::Ear;
use crate::ground_alone::GroundAlone;
use crate::in_order::InOrder;
use crate::laws::{origins_are_told, promises_are_kept};
use crate::link::Link;
use crate::make::run_make;
use crate::receiver_alone::ReceiverAlone;
use crate::relay::Relay;
use fisb_wire::{Sink, Source};
use ground_core::Ground;
use receiver_core::Receiver;
use run_core::Status;
use run_core::laws::runs_agree;
use std::alloc::Global;

/// Runs the command that the words name: `link`, `ground`, `receive`, `gdl`, or `make` with
/// two numbers. Nothing is read or written where they name none.
pub fn run<S: Source, K: Sink>(
    alloc: Global,
    words: &[String],
    source: &mut S,
    sink: &mut K,
) -> Status
    requires { K.spare sink.old ≡ None }
    ensures usage { (result ≡ Status.Usage)
        ↔ (command_named (map string_bytes words.now) ≡ None) }
    ensures untouched { result ≡ Status.Usage
        → (source.new ≡ source.old) × (sink.new ≡ sink.old) }

    // `link`: what it took, wrote and answered; and that each picture is the link picture while in
    // no block of a frame heard before it more than ten bytes were wrong.
    ensures link { command_named (map string_bytes words.now) ≡ Some Command.Link
        → HasRun (task_of link_work)
        (ends (S.left source.old) (S.faults source.old) (K.written sink.old) (K.faults sink.old))
        (ends (S.left source.new) (S.faults source.new) (K.written sink.new) (K.faults sink.new))
        result }
    ensures headline { command_named (map string_bytes words.now) ≡ Some Command.Link
        → HasRun (task_of promised_work)
        (ends (S.left source.old) (S.faults source.old) (K.written sink.old) (K.faults sink.old))
        (ends (S.left source.new) (S.faults source.new) (K.written sink.new) (K.faults sink.new))
        result }
    ensures decided { command_named (map string_bytes words.now) ≡ Some Command.Link
        → IsDecided (task_of link_work)
        (ends (S.left source.old) (S.faults source.old) (K.written sink.old) (K.faults sink.old))
        (ends (S.left source.new) (S.faults source.new) (K.written sink.new) (K.faults sink.new))
        result }
    ensures complete { command_named (map string_bytes words.now) ≡ Some Command.Link
        → IsComplete (task_of link_work) (K.reach sink.old)
        (ends (S.left source.old) (S.faults source.old) (K.written sink.old) (K.faults sink.old))
        (ends (S.left source.new) (S.faults source.new) (K.written sink.new) (K.faults sink.new))
        result }

    // `ground`: the same, without pictures.
    ensures ground_alone { command_named (map string_bytes words.now) ≡ Some Command.Ground
        → HasRun (task_of ground_work)
        (ends (S.left source.old) (S.faults source.old) (K.written sink.old) (K.faults sink.old))
        (ends (S.left source.new) (S.faults source.new) (K.written sink.new) (K.faults sink.new))
        result }
    ensures ground_decided { command_named (map string_bytes words.now) ≡ Some Command.Ground
        → IsDecided (task_of ground_work)
        (ends (S.left source.old) (S.faults source.old) (K.written sink.old) (K.faults sink.old))
        (ends (S.left source.new) (S.faults source.new) (K.written sink.new) (K.faults sink.new))
        result }
    ensures ground_complete { command_named (map string_bytes words.now) ≡ Some Command.Ground
        → IsComplete (task_of ground_work) (K.reach sink.old)
        (ends (S.left source.old) (S.faults source.old) (K.written sink.old) (K.faults sink.old))
        (ends (S.left source.new) (S.faults source.new) (K.written sink.new) (K.faults sink.new))
        result }

    // `receive`: the same; and that each picture is the link picture of a broadcast whose frames
    // were heard in time, with at most ten wrong bytes in each block.
    ensures receive { command_named (map string_bytes words.now) ≡ Some Command.Receive
        → HasRun (task_of receive_work)
        (ends (S.left source.old) (S.faults source.old) (K.written sink.old) (K.faults sink.old))
        (ends (S.left source.new) (S.faults source.new) (K.written sink.new) (K.faults sink.new))
        result }
    ensures receive_headline { (origin : Origin) → IsOrigin origin
        → command_named (map string_bytes words.now) ≡ Some Command.Receive
        → HasRun (task_of (origin_work origin))
        (ends (S.left source.old) (S.faults source.old) (K.written sink.old) (K.faults sink.old))
        (ends (S.left source.new) (S.faults source.new) (K.written sink.new) (K.faults sink.new))
        result }
    ensures receive_decided { command_named (map string_bytes words.now) ≡ Some Command.Receive
        → IsDecided (task_of receive_work)
        (ends (S.left source.old) (S.faults source.old) (K.written sink.old) (K.faults sink.old))
        (ends (S.left source.new) (S.faults source.new) (K.written sink.new) (K.faults sink.new))
        result }
    ensures receive_complete { command_named (map string_bytes words.now) ≡ Some Command.Receive
        → IsComplete (task_of receive_work) (K.reach sink.old)
        (ends (S.left source.old) (S.faults source.old) (K.written sink.old) (K.faults sink.old))
        (ends (S.left source.new) (S.faults source.new) (K.written sink.new) (K.faults sink.new))
        result }

    // `gdl`: the same, with messages for displays alone.
    ensures gdl { command_named (map string_bytes words.now) ≡ Some Command.Gdl
        → HasRun (task_of gdl_work)
        (ends (S.left source.old) (S.faults source.old) (K.written sink.old) (K.faults sink.old))
        (ends (S.left source.new) (S.faults source.new) (K.written sink.new) (K.faults sink.new))
        result }
    ensures gdl_decided { command_named (map string_bytes words.now) ≡ Some Command.Gdl
        → IsDecided (task_of gdl_work)
        (ends (S.left source.old) (S.faults source.old) (K.written sink.old) (K.faults sink.old))
        (ends (S.left source.new) (S.faults source.new) (K.written sink.new) (K.faults sink.new))
        result }
    ensures gdl_complete { command_named (map string_bytes words.now) ≡ Some Command.Gdl
        → IsComplete (task_of gdl_work) (K.reach sink.old)
        (ends (S.left source.old) (S.faults source.old) (K.written sink.old) (K.faults sink.old))
        (ends (S.left source.new) (S.faults source.new) (K.written sink.new) (K.faults sink.new))
        result }

    // `make`: nothing is read, and the summary of its workload is written.
    ensures make { (count seed : ℕ)
        → command_named (map string_bytes words.now) ≡ Some (Command.Make count seed)
        → (source.new ≡ source.old) × HasMade count seed
        (sink_end (K.written sink.old) (K.faults sink.old))
        (sink_end (K.written sink.new) (K.faults sink.new)) result }
    ensures make_complete { (count seed : ℕ)
        → command_named (map string_bytes words.now) ≡ Some (Command.Make count seed)
        → IsMadeWhole count seed (K.reach sink.old)
        (sink_end (K.written sink.old) (K.faults sink.old)) result }

    // What the counts of faults of source and sink tell.
    ensures read_fault { result ≡ Status.ReadFault
        → Rose (S.faults source.old) (S.faults source.new) }
    ensures write_fault { result ≡ Status.WriteFault
        → Rose (K.faults sink.old) (K.faults sink.new) }
    ensures source_faults { S.faults source.old ≤ S.faults source.new }
    ensures sink_faults { K.faults sink.old ≤ K.faults sink.new }
    ensures spare { K.spare sink.new ≡ None }
    ensures reach { K.reach sink.new ≡ K.reach sink.old }
{
    match command_of(words) {
        None => Status::Usage,
        Some(Command::Link) => run_link(alloc, source, sink),
        Some(Command::Ground) => run_ground(alloc, source, sink),
        Some(Command::Receive) => run_receive(alloc, source, sink),
        Some(Command::Gdl) => run_gdl(alloc, source, sink),
        Some(Command::Make { count, seed }) => run_make(alloc, count, seed, sink),
    }
}

/// Runs `link`: acts on the lines of the script that the source gives, as a ground and a receiver
/// of its frames.
pub fn run_link<S: Source, K: Sink>(alloc: Global, source: &mut S, sink: &mut K) -> Status
    requires { K.spare sink.old ≡ None }
    ensures ran { HasRun (task_of link_work)
        (ends (S.left source.old) (S.faults source.old) (K.written sink.old) (K.faults sink.old))
        (ends (S.left source.new) (S.faults source.new) (K.written sink.new) (K.faults sink.new))
        result }
    ensures headline { HasRun (task_of promised_work)
        (ends (S.left source.old) (S.faults source.old) (K.written sink.old) (K.faults sink.old))
        (ends (S.left source.new) (S.faults source.new) (K.written sink.new) (K.faults sink.new))
        result }
    ensures decided { IsDecided (task_of link_work)
        (ends (S.left source.old) (S.faults source.old) (K.written sink.old) (K.faults sink.old))
        (ends (S.left source.new) (S.faults source.new) (K.written sink.new) (K.faults sink.new))
        result }
    ensures complete { IsComplete (task_of link_work) (K.reach sink.old)
        (ends (S.left source.old) (S.faults source.old) (K.written sink.old) (K.faults sink.old))
        (ends (S.left source.new) (S.faults source.new) (K.written sink.new) (K.faults sink.new))
        result }
    ensures read_fault { result ≡ Status.ReadFault
        → Rose (S.faults source.old) (S.faults source.new) }
    ensures write_fault { result ≡ Status.WriteFault
        → Rose (K.faults sink.old) (K.faults sink.new) }
    ensures source_faults { S.faults source.old ≤ S.faults source.new }
    ensures sink_faults { K.faults sink.old ≤ K.faults sink.new }
    ensures spare { K.spare sink.new ≡ None }
    ensures reach { K.reach sink.new ≡ K.reach sink.old }
{
    run_link_over::<S, K, Receiver>(alloc, source, sink)
}

/// Runs `link` with any receiver: each frame that is heard goes to it, and each picture comes from
/// it.
pub fn run_link_over<S: Source, K: Sink, E: Ear>(
    alloc: Global,
    source: &mut S,
    sink: &mut K,
) -> Status
    requires { K.spare sink.old ≡ None }
    ensures ran { HasRun (task_of link_work)
        (ends (S.left source.old) (S.faults source.old) (K.written sink.old) (K.faults sink.old))
        (ends (S.left source.new) (S.faults source.new) (K.written sink.new) (K.faults sink.new))
        result }
    ensures headline { HasRun (task_of promised_work)
        (ends (S.left source.old) (S.faults source.old) (K.written sink.old) (K.faults sink.old))
        (ends (S.left source.new) (S.faults source.new) (K.written sink.new) (K.faults sink.new))
        result }
    ensures decided { IsDecided (task_of link_work)
        (ends (S.left source.old) (S.faults source.old) (K.written sink.old) (K.faults sink.old))
        (ends (S.left source.new) (S.faults source.new) (K.written sink.new) (K.faults sink.new))
        result }
    ensures complete { IsComplete (task_of link_work) (K.reach sink.old)
        (ends (S.left source.old) (S.faults source.old) (K.written sink.old) (K.faults sink.old))
        (ends (S.left source.new) (S.faults source.new) (K.written sink.new) (K.faults sink.new))
        result }
    ensures read_fault { result ≡ Status.ReadFault
        → Rose (S.faults source.old) (S.faults source.new) }
    ensures write_fault { result ≡ Status.WriteFault
        → Rose (K.faults sink.old) (K.faults sink.new) }
    ensures source_faults { S.faults source.old ≤ S.faults source.new }
    ensures sink_faults { K.faults sink.old ≤ K.faults sink.new }
    ensures spare { K.spare sink.new ≡ None }
    ensures reach { K.reach sink.new ≡ K.reach sink.old }
{
    runs_agree();
    promises_are_kept();
    run_core::run::<InOrder<Link<Ground, E>>, S, K>(alloc, source, sink)
}

/// Runs `ground`: acts on the lines of the script that the source gives, as a ground alone, and
/// writes what is on the air.
pub fn run_ground<S: Source, K: Sink>(alloc: Global, source: &mut S, sink: &mut K) -> Status
    requires { K.spare sink.old ≡ None }
    ensures ran { HasRun (task_of ground_work)
        (ends (S.left source.old) (S.faults source.old) (K.written sink.old) (K.faults sink.old))
        (ends (S.left source.new) (S.faults source.new) (K.written sink.new) (K.faults sink.new))
        result }
    ensures decided { IsDecided (task_of ground_work)
        (ends (S.left source.old) (S.faults source.old) (K.written sink.old) (K.faults sink.old))
        (ends (S.left source.new) (S.faults source.new) (K.written sink.new) (K.faults sink.new))
        result }
    ensures complete { IsComplete (task_of ground_work) (K.reach sink.old)
        (ends (S.left source.old) (S.faults source.old) (K.written sink.old) (K.faults sink.old))
        (ends (S.left source.new) (S.faults source.new) (K.written sink.new) (K.faults sink.new))
        result }
    ensures read_fault { result ≡ Status.ReadFault
        → Rose (S.faults source.old) (S.faults source.new) }
    ensures write_fault { result ≡ Status.WriteFault
        → Rose (K.faults sink.old) (K.faults sink.new) }
    ensures source_faults { S.faults source.old ≤ S.faults source.new }
    ensures sink_faults { K.faults sink.old ≤ K.faults sink.new }
    ensures spare { K.spare sink.new ≡ None }
    ensures reach { K.reach sink.new ≡ K.reach sink.old }
{
    run_core::run::<InOrder<GroundAlone<Ground>>, S, K>(alloc, source, sink)
}

/// Runs `receive`: acts on the lines of the script that the source gives, as a receiver alone.
pub fn run_receive<S: Source, K: Sink>(alloc: Global, source: &mut S, sink: &mut K) -> Status
    requires { K.spare sink.old ≡ None }
    ensures ran { HasRun (task_of receive_work)
        (ends (S.left source.old) (S.faults source.old) (K.written sink.old) (K.faults sink.old))
        (ends (S.left source.new) (S.faults source.new) (K.written sink.new) (K.faults sink.new))
        result }
    ensures headline { (origin : Origin) → IsOrigin origin → HasRun (task_of (origin_work origin))
        (ends (S.left source.old) (S.faults source.old) (K.written sink.old) (K.faults sink.old))
        (ends (S.left source.new) (S.faults source.new) (K.written sink.new) (K.faults sink.new))
        result }
    ensures decided { IsDecided (task_of receive_work)
        (ends (S.left source.old) (S.faults source.old) (K.written sink.old) (K.faults sink.old))
        (ends (S.left source.new) (S.faults source.new) (K.written sink.new) (K.faults sink.new))
        result }
    ensures complete { IsComplete (task_of receive_work) (K.reach sink.old)
        (ends (S.left source.old) (S.faults source.old) (K.written sink.old) (K.faults sink.old))
        (ends (S.left source.new) (S.faults source.new) (K.written sink.new) (K.faults sink.new))
        result }
    ensures read_fault { result ≡ Status.ReadFault
        → Rose (S.faults source.old) (S.faults source.new) }
    ensures write_fault { result ≡ Status.WriteFault
        → Rose (K.faults sink.old) (K.faults sink.new) }
    ensures source_faults { S.faults source.old ≤ S.faults source.new }
    ensures sink_faults { K.faults sink.old ≤ K.faults sink.new }
    ensures spare { K.spare sink.new ≡ None }
    ensures reach { K.reach sink.new ≡ K.reach sink.old }
{
    runs_agree();
    origins_are_told();
    run_core::run::<InOrder<ReceiverAlone<Receiver>>, S, K>(alloc, source, sink)
}

/// Runs `gdl`: acts on the lines of the script that the source gives, and writes the messages for
/// displays.
pub fn run_gdl<S: Source, K: Sink>(alloc: Global, source: &mut S, sink: &mut K) -> Status
    requires { K.spare sink.old ≡ None }
    ensures ran { HasRun (task_of gdl_work)
        (ends (S.left source.old) (S.faults source.old) (K.written sink.old) (K.faults sink.old))
        (ends (S.left source.new) (S.faults source.new) (K.written sink.new) (K.faults sink.new))
        result }
    ensures decided { IsDecided (task_of gdl_work)
        (ends (S.left source.old) (S.faults source.old) (K.written sink.old) (K.faults sink.old))
        (ends (S.left source.new) (S.faults source.new) (K.written sink.new) (K.faults sink.new))
        result }
    ensures complete { IsComplete (task_of gdl_work) (K.reach sink.old)
        (ends (S.left source.old) (S.faults source.old) (K.written sink.old) (K.faults sink.old))
        (ends (S.left source.new) (S.faults source.new) (K.written sink.new) (K.faults sink.new))
        result }
    ensures read_fault { result ≡ Status.ReadFault
        → Rose (S.faults source.old) (S.faults source.new) }
    ensures write_fault { result ≡ Status.WriteFault
        → Rose (K.faults sink.old) (K.faults sink.new) }
    ensures source_faults { S.faults source.old ≤ S.faults source.new }
    ensures sink_faults { K.faults sink.old ≤ K.faults sink.new }
    ensures spare { K.spare sink.new ≡ None }
    ensures reach { K.reach sink.new ≡ K.reach sink.old }
{
    run_core::run::<InOrder<Relay>, S, K>(alloc, source, sink)
}
