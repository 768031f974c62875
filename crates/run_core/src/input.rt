//! The bytes that were read and not yet acted on.
ghost use Rattle.std.specs.Prelude.{◌≡◌, ◌+◌, ◌<◌, ◌≤◌, ◌^◌, [], ◌++◌, length, drop, IfOk, IfSome};
ghost use Rattle.std.specs.Prelude.{None};
ghost use Rattle.std.specs.Prelude.{option_map, false};
ghost use Rattle.circular_buffer.specs.Buffer.{buffer};
ghost use Rattle.run_core.specs.Limits.{input_limit, ring_limit, table_limit};
ghost use Rattle.run_core.specs.Reading.{HasReadOn, HasReadPast, IsWithin, newline_in};
ghost use Rattle.run_core.specs.Run.{source_end};

use circular_buffer::HeapCircularBuffer;
use fisb_wire::Source;
use memchr::memchr;
use std::alloc::{AllocError, Global};

/// The most bytes of an input that are acted on.
const INPUT_LIMIT: usize = 67_108_864;

/// How many bytes can be held.
pub(crate) const RING_LIMIT: usize = 65_541;

/// The most bytes that one read asks for.
const PIECE: usize = 4_096;

/// How a read went.
#[derive(Clone, Copy, Debug, PartialEq, Eq)]
pub(crate) enum Read {
    /// Bytes came, a newline among them.
    Line,
    /// Bytes came, and no newline.
    More,
    /// The input ended.
    End,
    /// The read failed.
    Failed,
    /// A byte past the limit of the input came. It is not held.
    Full,
}

/// The bytes that were read and not yet acted on, and how many were read in all.
#[derive(Drop)]
pub(crate) struct Input {
    pub(crate) ring: HeapCircularBuffer<u8>,
    pub(crate) taken: usize,
}

impl Input {
    /// Before the first read.
    pub(crate) fn new(alloc: Global) -> Result<Input, AllocError>
        ensures { IfOk result (λ input. input ≡ record { ring = buffer [] ring_limit; taken = 0 }) }
    {
        Ok(Input {
            ring: HeapCircularBuffer::with_capacity(alloc, RING_LIMIT)?,
            taken: 0,
        })
    }

    /// Reads on. It asks for no more bytes than the ring has room for, and never for one that
    /// stands more than one byte past the limit of the input.
    pub(crate) fn read_on<S: Source>(&mut self, source: &mut S) -> Read
        requires within { IsWithin self.old }
        requires room { length self.old.ring.items < ring_limit }
        ensures read { HasReadOn self.old self.new
            (source_end (S.left source.old) (S.faults source.old))
            (source_end (S.left source.new) (S.faults source.new)) result }
        ensures within { IsWithin self.new }
    {
        if self.taken >= INPUT_LIMIT {
            return past_limit(source);
        }
        let mut room = [0u8; PIECE];
        let size = PIECE
            .min(RING_LIMIT - self.ring.len())
            .min(INPUT_LIMIT - self.taken);
        let part = &mut room[..size];
        let Ok(count) = source.read(part) else {
            return Read::Failed;
        };
        if count == 0 {
            return Read::End;
        }
        let piece = &part[..count];
        let has_line = has_newline(piece);
        self.ring.fill_from_slice(piece);
        self.taken += count;
        if has_line { Read::Line } else { Read::More }
    }

    /// Where the first newline at or after a place stands. It is not looked for where there can
    /// be none.
    pub(crate) fn next_end(&self, from: usize, may_end: bool) -> Option<usize>
        requires from { from ≤ length self.now.ring.items }
        requires none { may_end ≡ false → newline_in (drop from self.now.ring.items) ≡ None }
        ensures end { result
            ≡ option_map (λ end. from + end) (newline_in (drop from self.now.ring.items)) }
        ensures within { IfSome result (λ end. end < length self.now.ring.items) }
    {
        if !may_end {
            return None;
        }
        let (front, back) = self.ring.as_slices();
        let skipped = from.min(front.len());
        let front = front.split_at(skipped).1;
        let back = back.split_at(from - skipped).1;
        match newline_in_two(front, back) {
            Some(end) => Some(from + end),
            None => None,
        }
    }

    /// Lets go of so many bytes at the front.
    pub(crate) fn drop_front(&mut self, count: usize)
        requires { count ≤ length self.old.ring.items }
        ensures { self.new ≡ record self.old {
          ring = buffer (drop count self.old.ring.items) self.old.ring.capacity;
        } }
    {
        self.ring.truncate_front(self.ring.len() - count);
    }
}

// Reads one byte past the limit of the input, if there is one.
fn past_limit<S: Source>(source: &mut S) -> Read
    ensures { HasReadPast (source_end (S.left source.old) (S.faults source.old))
        (source_end (S.left source.new) (S.faults source.new)) result }
{
    let mut byte = [0u8; 1];
    match source.read(&mut byte) {
        Ok(0) => Read::End,
        Ok(_) => Read::Full,
        Err(_) => Read::Failed,
    }
}

fn has_newline(bytes: &[u8]) -> bool
    ensures { result ≡ false → newline_in bytes.now ≡ None }
{
    memchr(b'\n', bytes).is_some()
}

// Where the first newline stands of bytes in two parts.
fn newline_in_two(front: &[u8], back: &[u8]) -> Option<usize>
    requires { length front.now + length back.now < 2 ^ 64 }
    ensures { result ≡ newline_in (front.now ++ back.now) }
{
    if let Some(end) = memchr(b'\n', front) {
        return Some(end);
    }
    match memchr(b'\n', back) {
        Some(end) => Some(front.len() + end),
        None => None,
    }
}
