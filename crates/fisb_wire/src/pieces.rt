//! A source that gives its bytes in pieces of chosen sizes.
ghost use Rattle.std.specs.Prelude.{◌≡◌, ℕ, ◌<◌, ◌≤◌, min, ◌++◌, length, take, drop, Some, All};
ghost use Rattle.std.specs.Prelude.{IfOk, IsOk, OnOk, nat_lt, if◌then◌else◌};
ghost use Rattle.std.specs.Io.{ReadsAtMost};
ghost use Rattle.std.specs.Io.KnownBytes.{ReadConsumes};
ghost use Rattle.fisb_wire.specs.Faults.{HasCause, u64_count, u64_count-bound};
ghost use Rattle.fisb_wire.specs.Pieces.{next_size};

use crate::ends::{Failed, Source};
use crate::lists::{Bytes, Numbers};
use crate::remaining::Remaining;
use std::marker::Model;

/// A source of the bytes of a list. Each read gives at most as many as its size says, and once the sizes
/// are used up as many as fit. No read fails.
#[derive(Drop)]
pub struct PieceSource {
    remaining: Remaining,
    sizes: Numbers,
    // How many sizes were used.
    next: usize,
}

impl Model for PieceSource {
    ghost use Rattle.std.specs.Prelude.{ℕ, ◌<◌, ◌≤◌, length, drop, All};
    ghost use Rattle.fisb_wire.specs.Pieces.{Pieces};

    ghost Value = { Pieces };

    ghost view = { λ s. record { left = s.remaining; sizes = drop s.next s.sizes } };

    ghost invariant = { λ s. (s.next ≤ length s.sizes) × All (λ size. 0 < size) s.sizes };
}

impl PieceSource {
    /// A source of the bytes of `input`, whose k-th read, from 0, gives at most the k-th size.
    pub fn new(input: Bytes, sizes: Numbers) -> PieceSource
        requires { All (λ size. 0 < size) sizes }
        ensures { result ≡ record { left = input; sizes = sizes } }
    {
        PieceSource {
            remaining: Remaining::of(input),
            sizes,
            next: 0,
        }
    }

    /// The bytes still to come.
    pub fn rest(&self) -> &[u8]
        ensures { result.now ≡ self.now.left }
    {
        self.remaining.all()
    }

    // The most bytes that the next read gives, and goes on to the next size.
    fn next_size(&mut self) -> usize
        ensures size { result ≡ next_size self.old.sizes }
        ensures positive { 0 < result }
        ensures next { self.new ≡ record self.old { sizes = drop 1 self.old.sizes } }
    {
        if self.next >= self.sizes.len() {
            return usize::MAX;
        }
        let size = self.sizes.at(self.next);
        self.next += 1;
        size as usize
    }
}

impl Source for PieceSource {
    ghost left = { λ s. Some s.left };

    ghost faults = { λ _. u64_count 0 };

    ghost bounded = { λ _. u64_count-bound 0 };

    fn read(&mut self, room: &mut [u8]) -> Result<usize, Failed>
        ensures bound { ReadsAtMost result room.new }
        ensures bytes { ReadConsumes (Some self.old.left) (Some self.new.left) result room.new }
        ensures cause { HasCause (u64_count 0) (u64_count 0) result }
        ensures kept { OnOk result (u64_count 0 ≡ u64_count 0) }

        ensures faithful { IsOk result }
        ensures count { IfOk result (λ n. n
            ≡ min (next_size self.old.sizes) (min (length room.old) (length self.old.left))) }
        ensures given { IfOk result (λ n. room.new ≡ take n self.old.left ++ drop n room.old) }
        ensures next { IfOk result (λ n. self.new
            ≡ record { left = drop n self.old.left; sizes = drop 1 self.old.sizes }) }
    {
        let most = self.next_size();
        Ok(self.remaining.give(room, most))
    }
}
