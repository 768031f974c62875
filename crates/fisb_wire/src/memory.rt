//! A source and a sink in memory, which fail at chosen calls.
ghost use Rattle.std.specs.Prelude.{◌≡◌, ℕ, ◌+◌, ◌-◌, ◌<◌, ◌≤◌, ◌↔◌, min, [], ◌++◌, length, take};
ghost use Rattle.std.specs.Prelude.{drop, Contains, Some, None, IsTrue, IsErr, IfOk, OnOk, OnErr};
ghost use Rattle.std.specs.Io.{ReadsAtMost};
ghost use Rattle.std.specs.Io.KnownBytes.{ReadConsumes, WriteAppends};
ghost use Rattle.fisb_wire.specs.Faults.{HasCause, u64_count, u64_count-bound, next_count};
ghost use Rattle.fisb_wire.specs.Ends.{TakesSome, FitsSpare, SpendsTaken, IsReached};
ghost use Rattle.fisb_wire.specs.Memory.{FailsNext, RefusesNext, store_reach, store-reached};

use crate::copying::copy_behind;
use crate::ends::{Failed, Sink, Source};
use crate::lists::{Bytes, Numbers};
use crate::remaining::Remaining;
use std::alloc::{AllocError, Global};
use std::marker::Model;

/// A source of the bytes of a list. Chosen calls of it fail.
#[derive(Drop)]
pub struct MemorySource {
    remaining: Remaining,
    // How many calls were made.
    calls: u64,
    fails: Numbers,
    // The most bytes that one read gives.
    piece: usize,
    // How many calls failed.
    failed: u64,
}

impl Model for MemorySource {
    ghost use Rattle.std.specs.Prelude.{◌<◌};
    ghost use Rattle.fisb_wire.specs.Memory.{Supply};

    ghost Value = { Supply };

    ghost view = { λ s. record {
      left = s.remaining;
      next = s.calls;
      fails = s.fails;
      piece = s.piece;
      faults = s.failed;
    } };

    ghost invariant = { λ s. 0 < s.piece };
}

impl MemorySource {
    /// A source of the bytes of `input`, of which exactly the calls with the numbers in `fails` fail,
    /// counted from 0. A read gives at most `piece` bytes.
    pub fn new(input: Bytes, fails: Numbers, piece: usize) -> MemorySource
        requires { 0 < piece }
        ensures { result ≡ record {
          left = input;
          next = 0;
          fails = fails;
          piece = piece;
          faults = 0;
        } }
    {
        MemorySource {
            remaining: Remaining::of(input),
            calls: 0,
            fails,
            piece,
            failed: 0,
        }
    }
}

impl Source for MemorySource {
    ghost left = { λ s. Some s.left };

    ghost faults = { λ s. u64_count s.faults };

    ghost bounded = { λ s. u64_count-bound s.faults };

    fn read(&mut self, room: &mut [u8]) -> Result<usize, Failed>
        ensures bound { ReadsAtMost result room.new }
        ensures bytes { ReadConsumes (Some self.old.left) (Some self.new.left) result room.new }
        ensures cause { HasCause (u64_count self.old.faults) (u64_count self.new.faults) result }
        ensures kept { OnOk result (u64_count self.new.faults ≡ u64_count self.old.faults) }

        ensures fails { IsErr result ↔ FailsNext self.old }
        ensures count { IfOk result (λ n.
            n ≡ min self.old.piece (min (length room.old) (length self.old.left))) }
        ensures given { IfOk result (λ n. room.new ≡ take n self.old.left ++ drop n room.old) }
        ensures ok { IfOk result (λ n. self.new ≡ record self.old {
          left = drop n self.old.left;
          next = next_count self.old.next;
        }) }
        ensures err { OnErr result (self.new ≡ record self.old {
          next = next_count self.old.next;
          faults = next_count self.old.faults;
        }) }
        ensures untouched { OnErr result (room.new ≡ room.old) }
    {
        let call = self.calls;
        self.calls = call.saturating_add(1);
        if is_listed(self.fails.all(), call) {
            self.failed = self.failed.saturating_add(1);
            return Err(Failed);
        }
        Ok(self.remaining.give(room, self.piece))
    }
}

/// A sink that keeps the bytes in a room of memory that it takes at once. Chosen calls of it fail, and
/// so does a write into the full room.
#[derive(Drop)]
pub struct MemorySink {
    buffer: Vec<u8>,
    // How many bytes were taken.
    used: usize,
    // How many calls were made.
    calls: u64,
    fails: Numbers,
    // How many calls failed.
    failed: u64,
}

impl Model for MemorySink {
    ghost use Rattle.std.specs.Prelude.{◌≡◌, ◌<◌, ◌≤◌, vec_len, [], length, take};
    ghost use Rattle.fisb_wire.specs.Memory.{Store, IsWhole};

    ghost Value = { Store };

    ghost view = { λ s. record {
      bytes = take s.used s.buffer.items;
      room = vec_len s.buffer;
      next = s.calls;
      fails = s.fails;
      faults = s.failed;
    } };

    ghost invariant = { λ s. IsWhole s.used (vec_len s.buffer) s.fails s.failed };
}

impl MemorySink {
    /// A sink with `room` bytes of memory, of which the calls with the numbers in `fails` fail, counted
    /// from 0.
    pub fn new(alloc: Global, room: usize, fails: Numbers) -> Result<MemorySink, AllocError>
        ensures { IfOk result (λ sink. sink ≡ record {
          bytes = [];
          room = room;
          next = 0;
          fails = fails;
          faults = 0;
        }) }
    {
        let buffer = vec![in alloc; 0u8; room]?;
        Ok(MemorySink {
            buffer,
            used: 0,
            calls: 0,
            fails,
            failed: 0,
        })
    }

    /// The bytes taken so far.
    pub fn bytes(&self) -> &[u8]
        ensures { result.now ≡ self.now.bytes }
    {
        &self.buffer.as_slice()[..self.used]
    }
}

impl Sink for MemorySink {
    ghost written = { λ s. Some s.bytes };

    ghost faults = { λ s. u64_count s.faults };

    ghost spare = { λ _. None };

    ghost reach = { store_reach };

    ghost bounded = { λ s. u64_count-bound s.faults };

    ghost reached = { store-reached };

    fn write(&mut self, piece: &[u8]) -> Result<usize, Failed>
        ensures some { TakesSome result (length piece.now) }
        ensures bytes { WriteAppends (Some self.old.bytes) (Some self.new.bytes) result piece.now }
        ensures spare { SpendsTaken None None result }
        ensures reach { store_reach self.new ≡ store_reach self.old }
        ensures cause { HasCause (u64_count self.old.faults) (u64_count self.new.faults) result }
        ensures kept { OnOk result (u64_count self.new.faults ≡ u64_count self.old.faults) }

        ensures fails { IsErr result ↔ RefusesNext self.old (length piece.now) }
        ensures count { IfOk result (λ n.
            n ≡ min (length piece.now) (self.old.room - length self.old.bytes)) }
        ensures ok { IfOk result (λ n. self.new ≡ record self.old {
          bytes = self.old.bytes ++ take n piece.now;
          next = next_count self.old.next;
        }) }
        ensures err { OnErr result (self.new ≡ record self.old {
          next = next_count self.old.next;
          faults = next_count self.old.faults;
        }) }
    {
        let call = self.calls;
        self.calls = call.saturating_add(1);
        let is_full = self.used == self.buffer.len() && !piece.is_empty();
        if is_full || is_listed(self.fails.all(), call) {
            self.failed = self.failed.saturating_add(1);
            return Err(Failed);
        }
        let n = copy_behind(self.used, piece, self.buffer.as_mut_slice());
        self.used += n;
        Ok(n)
    }
}

fn is_listed(numbers: &[u32], call: u64) -> bool
    ensures { IsTrue result ↔ Contains numbers.now call }
{
    numbers.iter().any(|number| u64::from(*number) == call)
}
