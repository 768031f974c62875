//! The words of the command line, and the number with which the program ends.
ghost use Rattle.std.specs.Prelude.{◌≡◌, ◌⊎◌, ℕ, IfOk, IfErr, None, Some, map, string_bytes};
ghost use Rattle.std.specs.IoError.{error_kind};
ghost use Rattle.std.specs.Vec.Iter.{into_iter_items};
ghost use Rattle.fisb_app.specs.Command.{command_named};
ghost use Rattle.fisb_app.specs.declared.command.Command.{Command};
ghost use Rattle.fisb_app.specs.Origin.{IsOrigin, Origin};
ghost use Rattle.fisb_app.specs.Make.{HasMade};
ghost use Rattle.fisb_app.specs.Work.{gdl_work, ground_work, link_work, origin_work, promised_work};
ghost use Rattle.fisb_app.specs.Work.{receive_work};
ghost use Rattle.run_core.specs.Run.{HasRun, IsDecided, ends, sink_end, task_of};
ghost use Rattle.fisb_cli.specs.Ending.{EndsAs, IsGdlAlone, IsGroundAlone, IsLinkAlone};
ghost use Rattle.fisb_cli.specs.Ending.{IsReceiveAlone, number_without_words, words_of};

use fisb_app::{Status, run};
use fisb_wire::{Sink, Source};
use std::alloc::{AllocError, Global};
use std::env::Args;
use std::io;
use std::io::ErrorKind;

/// Runs the command that the words name, and answers the number with which the program ends: that of
/// the run's status, 0 or 2 to 7. If the words can't be had nothing is read, written or run, and the
/// number is 7 for out of memory, or else 1.
pub fn run_args<S: Source, K: Sink>(
    alloc: Global,
    args: io::Result<Args>,
    source: &mut S,
    sink: &mut K,
) -> u8
    requires { K.spare sink.old ≡ None }
    ensures wordless { IfErr args (λ error.
        (result ≡ number_without_words (error_kind error))
        × (source.new ≡ source.old) × (sink.new ≡ sink.old)) }
    ensures usage { IfOk args (λ args. result ≡ 2
        → command_named (map string_bytes (words_of (into_iter_items args))) ≡ None) }
    ensures unnamed { IfOk args (λ args.
        command_named (map string_bytes (words_of (into_iter_items args))) ≡ None
        → (result ≡ 2) ⊎ (result ≡ 7)) }
    ensures untouched { result ≡ 2 → (source.new ≡ source.old) × (sink.new ≡ sink.old) }
    ensures make { IfOk args (λ args. (count seed : ℕ)
        → command_named (map string_bytes (words_of (into_iter_items args)))
        ≡ Some (Command.Make count seed)
        → (source.new ≡ source.old) × EndsAs result (HasMade count seed
        (sink_end (K.written sink.old) (K.faults sink.old))
        (sink_end (K.written sink.new) (K.faults sink.new)))) }
    ensures link { IfOk args (λ args.
        IsLinkAlone (map string_bytes (words_of (into_iter_items args)))
        → EndsAs result (λ status. HasRun (task_of promised_work)
        (ends (S.left source.old) (S.faults source.old) (K.written sink.old) (K.faults sink.old))
        (ends (S.left source.new) (S.faults source.new) (K.written sink.new) (K.faults sink.new))
        status
        × IsDecided (task_of link_work)
        (ends (S.left source.old) (S.faults source.old) (K.written sink.old) (K.faults sink.old))
        (ends (S.left source.new) (S.faults source.new) (K.written sink.new) (K.faults sink.new))
        status)) }
    ensures ground_alone { IfOk args (λ args.
        IsGroundAlone (map string_bytes (words_of (into_iter_items args)))
        → EndsAs result (λ status. HasRun (task_of ground_work)
        (ends (S.left source.old) (S.faults source.old) (K.written sink.old) (K.faults sink.old))
        (ends (S.left source.new) (S.faults source.new) (K.written sink.new) (K.faults sink.new))
        status
        × IsDecided (task_of ground_work)
        (ends (S.left source.old) (S.faults source.old) (K.written sink.old) (K.faults sink.old))
        (ends (S.left source.new) (S.faults source.new) (K.written sink.new) (K.faults sink.new))
        status)) }
    ensures receive { IfOk args (λ args.
        IsReceiveAlone (map string_bytes (words_of (into_iter_items args)))
        → EndsAs result (λ status. ((origin : Origin) → IsOrigin origin
        → HasRun (task_of (origin_work origin))
        (ends (S.left source.old) (S.faults source.old) (K.written sink.old) (K.faults sink.old))
        (ends (S.left source.new) (S.faults source.new) (K.written sink.new) (K.faults sink.new))
        status)
        × IsDecided (task_of receive_work)
        (ends (S.left source.old) (S.faults source.old) (K.written sink.old) (K.faults sink.old))
        (ends (S.left source.new) (S.faults source.new) (K.written sink.new) (K.faults sink.new))
        status)) }
    ensures gdl { IfOk args (λ args.
        IsGdlAlone (map string_bytes (words_of (into_iter_items args)))
        → EndsAs result (λ status. HasRun (task_of gdl_work)
        (ends (S.left source.old) (S.faults source.old) (K.written sink.old) (K.faults sink.old))
        (ends (S.left source.new) (S.faults source.new) (K.written sink.new) (K.faults sink.new))
        status
        × IsDecided (task_of gdl_work)
        (ends (S.left source.old) (S.faults source.old) (K.written sink.old) (K.faults sink.old))
        (ends (S.left source.new) (S.faults source.new) (K.written sink.new) (K.faults sink.new))
        status)) }
{
    match args {
        Ok(args) => match words(alloc, args) {
            Ok(words) => run(alloc, words.as_slice(), source, sink).code(),
            Err(AllocError) => Status::NoMemory.code(),
        },
        Err(error) => number_without_words(&error),
    }
}

/// The words of the command line after the program's name.
fn words(alloc: Global, args: Args) -> Result<Vec<String>, AllocError>
    ensures { IfOk result (λ words. words.items ≡ words_of (into_iter_items args)) }
{
    let mut args = args;
    args.next();
    let mut words = Vec::new(alloc);
    while let Some(word) = args.next() {
        words.push(word)?;
    }
    Ok(words)
}

/// The number with which the program ends if its words can't be had: that of out of memory, or 1.
fn number_without_words(error: &io::Error) -> u8
    ensures { result ≡ number_without_words (error_kind error.now) }
{
    match error.kind() {
        ErrorKind::OutOfMemory => Status::NoMemory.code(),
        _ => 1,
    }
}
