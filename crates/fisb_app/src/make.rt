//! The command `make`: a workload, acted on as `link` acts on the lines of a script.
ghost use Rattle.std.specs.Prelude.{◌≡◌, ◌≤◌, ◌-◌, None, [], IfOk, string_bytes};
ghost use Rattle.life_table.specs.LifeTable.{default_table};
ghost use Rattle.run_core.specs.Run.{sink_end};
ghost use Rattle.workload.specs.Workload.{workload};
ghost use Rattle.fisb_app.specs.Make.{HasMade, IsMadeWhole, after_steps, counts_of, summary_text};

use crate::counts::Counts;
use crate::ear::Ear;
use crate::making::Making;
use fisb_wire::{Bytes, Sink};
use ground_core::Ground;
use receiver_core::Receiver;
use run_core::{Status, write_all};
use std::alloc::{AllocError, Global};
use workload::Workload;

/// Runs `make`: so many minutes of traffic from a seed, of which a summary is written. The answer is
/// `Done`, `WriteFault` or `NoMemory`.
pub fn run_make<K: Sink>(alloc: Global, count: u32, seed: u64, sink: &mut K) -> Status
    requires spare { K.spare sink.old ≡ None }
    requires count { (1 ≤ count) × (count ≤ 1000) }
    ensures made { HasMade count seed (sink_end (K.written sink.old) (K.faults sink.old))
        (sink_end (K.written sink.new) (K.faults sink.new)) result }
    ensures complete { IsMadeWhole count seed (K.reach sink.old)
        (sink_end (K.written sink.old) (K.faults sink.old)) result }
    ensures sink_faults { K.faults sink.old ≤ K.faults sink.new }
    ensures spare { K.spare sink.new ≡ None }
    ensures reach { K.reach sink.new ≡ K.reach sink.old }
{
    run_make_over::<K, Receiver>(alloc, count, seed, sink)
}

/// Runs `make` with any receiver: each frame that is heard goes to it, and each picture comes from
/// it.
pub fn run_make_over<K: Sink, E: Ear>(alloc: Global, count: u32, seed: u64, sink: &mut K) -> Status
    requires spare { K.spare sink.old ≡ None }
    requires count { (1 ≤ count) × (count ≤ 1000) }
    ensures made { HasMade count seed (sink_end (K.written sink.old) (K.faults sink.old))
        (sink_end (K.written sink.new) (K.faults sink.new)) result }
    ensures complete { IsMadeWhole count seed (K.reach sink.old)
        (sink_end (K.written sink.old) (K.faults sink.old)) result }
    ensures sink_faults { K.faults sink.old ≤ K.faults sink.new }
    ensures spare { K.spare sink.new ≡ None }
    ensures reach { K.reach sink.new ≡ K.reach sink.old }
{
    let Ok(counts) = counts_after::<E>(alloc, count, seed) else {
        return Status::NoMemory;
    };
    let Ok(text) = print_summary(alloc, count, seed, counts) else {
        return Status::NoMemory;
    };
    match write_all(sink, text.all()) {
        Ok(()) => Status::Done,
        Err(_) => Status::WriteFault,
    }
}

/// The numbers of the whole workload.
fn counts_after<E: Ear>(alloc: Global, count: u32, seed: u64) -> Result<Counts, AllocError>
    requires { (1 ≤ count) × (count ≤ 1000) }
    ensures { IfOk result (λ counts. counts ≡ counts_of default_table
        (after_steps default_table [] (workload count seed))) }
{
    let mut steps = Workload::new(alloc, count, seed);
    let mut making: Making<Ground, E> = Making::new(alloc)?;
    while let Some(step) = steps.next_step()? {
        making.take(alloc, &step)?;
    }
    Ok(making.counts)
}

/// The line of a summary.
fn print_summary(alloc: Global, count: u32, seed: u64, counts: Counts) -> Result<Bytes, AllocError>
    ensures { IfOk result (λ text. text ≡ summary_text count seed counts) }
{
    let text = summary_line(alloc, count, seed, counts)?;
    Ok(Bytes::of(text.into_bytes()))
}

fn summary_line(alloc: Global, count: u32, seed: u64, counts: Counts) -> Result<String, AllocError>
    ensures { IfOk result (λ text. string_bytes text ≡ summary_text count seed counts) }
{
    let updates = counts.updates;
    let turns = counts.turns;
    let heard = counts.heard;
    let lost = turns.saturating_sub(heard);
    let corrected = counts.corrected;
    let entries = counts.entries;
    format!(in alloc;
        "make {count} {seed} updates {updates} turns {turns} heard {heard} lost {lost} \
        corrected {corrected} entries {entries}\n"
    )
}
