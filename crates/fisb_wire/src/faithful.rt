//! A source and a sink that never fail.
ghost use Rattle.std.specs.Prelude.{◌≡◌, ℕ, ◌-◌, ◌^◌, ◌≤◌, min, ◌++◌, length, take, drop, Some};
ghost use Rattle.std.specs.Prelude.{None, IfOk, IsOk, OnOk};
ghost use Rattle.std.specs.Io.{ReadsAtMost};
ghost use Rattle.std.specs.Io.KnownBytes.{ReadConsumes, WriteAppends};
ghost use Rattle.fisb_wire.specs.Faults.{HasCause, u64_count, u64_count-bound};
ghost use Rattle.fisb_wire.specs.Ends.{TakesSome, FitsSpare, SpendsTaken, IsReached};
ghost use Rattle.fisb_wire.specs.Faithful.{bytes_taken, room_left};

use crate::copying::copy_behind;
use crate::ends::{Failed, Sink, Source};
use crate::lists::Bytes;
use crate::remaining::Remaining;
use std::marker::Model;

/// A source of the bytes of a list, no read of which fails.
#[derive(Drop)]
pub struct FaithfulSource {
    remaining: Remaining,
}

impl Model for FaithfulSource {
    ghost use Rattle.std.specs.Prelude.{ℕ, List};

    ghost Value = { List ℕ };

    ghost view = { λ s. s.remaining };
}

impl FaithfulSource {
    /// A source of the bytes of `input`.
    pub fn new(input: Bytes) -> FaithfulSource
        ensures { result ≡ input }
    {
        FaithfulSource {
            remaining: Remaining::of(input),
        }
    }
}

impl Source for FaithfulSource {
    ghost left = { λ s. Some s };

    ghost faults = { λ _. u64_count 0 };

    ghost bounded = { λ _. u64_count-bound 0 };

    fn read(&mut self, room: &mut [u8]) -> Result<usize, Failed>
        ensures bound { ReadsAtMost result room.new }
        ensures bytes { ReadConsumes (Some self.old) (Some self.new) result room.new }
        ensures cause { HasCause (u64_count 0) (u64_count 0) result }
        ensures kept { OnOk result (u64_count 0 ≡ u64_count 0) }

        ensures faithful { IsOk result }
        ensures count { IfOk result (λ n. n ≡ min (length room.old) (length self.old)) }
        ensures given { IfOk result (λ n. room.new ≡ take n self.old ++ drop n room.old) }
        ensures left { IfOk result (λ n. self.new ≡ drop n self.old) }
    {
        Ok(self.remaining.give(room, usize::MAX))
    }
}

/// A sink that keeps the bytes in a room lent to it, and asks its caller not to write more than is left
/// of it. No write of it fails.
#[derive(Drop)]
pub struct FaithfulSink<'a> {
    room: &'a mut [u8],
    // How many bytes were taken.
    used: usize,
}

impl<'a> FaithfulSink<'a> {
    /// A sink that keeps the bytes in `room`.
    pub fn new(room: &'a mut [u8]) -> FaithfulSink<'a>
        ensures same_room { result.room.ghost_name ≡ room.entry.ghost_name }
        ensures room { result.room.now ≡ room.old }
        ensures used { result.used ≡ 0 }
    {
        FaithfulSink { room, used: 0 }
    }
}

impl Sink for FaithfulSink<'_> {
    ghost written = { λ s. Some (bytes_taken s) };

    ghost faults = { λ _. u64_count 0 };

    ghost spare = { λ s. Some (room_left s) };

    ghost reach = { λ _. None };

    ghost bounded = { λ _. u64_count-bound 0 };

    ghost reached = { λ _. tt };

    fn write(&mut self, piece: &[u8]) -> Result<usize, Failed>
        requires { FitsSpare (Some (room_left self.old)) (length piece.now) }
        ensures some { TakesSome result (length piece.now) }
        ensures bytes { WriteAppends (Some (bytes_taken self.old)) (Some (bytes_taken self.new))
            result piece.now }
        ensures spare { SpendsTaken (Some (room_left self.old)) (Some (room_left self.new)) result }
        ensures cause { HasCause (u64_count 0) (u64_count 0) result }
        ensures kept { OnOk result (u64_count 0 ≡ u64_count 0) }

        ensures all { result ≡ Ok (length piece.now) }
        ensures same_room { self.new.room.ghost_name ≡ self.old.room.ghost_name }
    {
        if piece.is_empty() {
            return Ok(0);
        }
        let n = copy_behind(self.used, piece, self.room);
        self.used += n;
        Ok(n)
    }
}
