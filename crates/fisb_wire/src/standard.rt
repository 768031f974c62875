//! A source over a reader and a sink over a writer of the standard library, which count the calls that
//! failed.
ghost use Rattle.std.specs.Prelude.{◌≡◌, ◌-◌, ◌^◌, length, None, OnOk, OnErr};
ghost use Rattle.std.specs.Io.{ReadsAtMost};
ghost use Rattle.std.specs.Io.KnownBytes.{ReadConsumes, WriteAppends};
ghost use Rattle.fisb_wire.specs.Faults.{HasCause, u64_count, u64_count-bound, next_count};
ghost use Rattle.fisb_wire.specs.Ends.{TakesSome, SpendsTaken, IsReached};
ghost use Rattle.fisb_wire.specs.Standard.{reader_of, failed_reads, writer_of, failed_writes};

use crate::ends::{Failed, Sink, Source};
use std::io::{Read, Write};

/// A source of the bytes of a reader. A read that the reader says was interrupted failed like any other.
#[derive(Drop)]
pub struct StdSource<R> {
    inner: R,
    failed: u64,
}

impl<R> StdSource<R> {
    /// A source of the bytes that the reader has left.
    pub fn new(inner: R) -> StdSource<R>
        ensures inner { reader_of result ≡ inner }
        ensures faults { failed_reads result ≡ 0 }
    {
        StdSource { inner, failed: 0 }
    }
}

impl<R: Read> Source for StdSource<R> {
    ghost left = { λ source. R.remaining (reader_of source) };

    ghost faults = { λ source. u64_count (failed_reads source) };

    ghost bounded = { λ source. u64_count-bound (failed_reads source) };

    fn read(&mut self, room: &mut [u8]) -> Result<usize, Failed>
        ensures bound { ReadsAtMost result room.new }
        ensures bytes { ReadConsumes (R.remaining (reader_of self.old))
            (R.remaining (reader_of self.new)) result room.new }
        ensures cause { HasCause (u64_count (failed_reads self.old))
            (u64_count (failed_reads self.new)) result }
        ensures kept { OnOk result
            (u64_count (failed_reads self.new) ≡ u64_count (failed_reads self.old)) }

        ensures ok { OnOk result (failed_reads self.new ≡ failed_reads self.old) }
        ensures err { OnErr result (failed_reads self.new ≡ next_count (failed_reads self.old)) }
    {
        match self.inner.read(room) {
            Ok(n) => Ok(n),
            Err(_) => {
                self.failed = self.failed.saturating_add(1);
                Err(Failed)
            }
        }
    }
}

/// A sink into a writer. A write that the writer says was interrupted failed like any other, and so did
/// one that took nothing of a piece that is not empty.
#[derive(Drop)]
pub struct StdSink<W> {
    inner: W,
    failed: u64,
}

impl<W> StdSink<W> {
    /// A sink into the writer, after the bytes that it holds.
    pub fn new(inner: W) -> StdSink<W>
        ensures inner { writer_of result ≡ inner }
        ensures faults { failed_writes result ≡ 0 }
    {
        StdSink { inner, failed: 0 }
    }
}

impl<W: Write> Sink for StdSink<W> {
    ghost written = { λ sink. W.contents (writer_of sink) };

    ghost faults = { λ sink. u64_count (failed_writes sink) };

    ghost spare = { λ _. None };

    ghost reach = { λ _. None };

    ghost bounded = { λ sink. u64_count-bound (failed_writes sink) };

    ghost reached = { λ _. tt };

    fn write(&mut self, piece: &[u8]) -> Result<usize, Failed>
        ensures some { TakesSome result (length piece.now) }
        ensures bytes { WriteAppends (W.contents (writer_of self.old))
            (W.contents (writer_of self.new)) result piece.now }
        ensures spare { SpendsTaken None None result }
        ensures cause { HasCause (u64_count (failed_writes self.old))
            (u64_count (failed_writes self.new)) result }
        ensures kept { OnOk result
            (u64_count (failed_writes self.new) ≡ u64_count (failed_writes self.old)) }

        ensures ok { OnOk result (failed_writes self.new ≡ failed_writes self.old) }
        ensures err { OnErr result (failed_writes self.new ≡ next_count (failed_writes self.old)) }
    {
        match self.inner.write(piece) {
            Ok(n) if n > 0 || piece.is_empty() => Ok(n),
            _ => {
                self.failed = self.failed.saturating_add(1);
                Err(Failed)
            }
        }
    }
}
