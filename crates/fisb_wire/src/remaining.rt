//! The bytes of a list that are still to be read.
ghost use Rattle.std.specs.Prelude.{◌≡◌, ◌<◌, ◌≤◌, min, [], ◌++◌, length, take, drop};

use crate::copying::copy_front;
use crate::lists::Bytes;
use std::marker::Model;

/// A list of bytes, some of which were read from its front.
#[derive(Drop)]
pub(crate) struct Remaining {
    input: Bytes,
    // How many bytes were read.
    place: usize,
}

impl Model for Remaining {
    ghost use Rattle.std.specs.Prelude.{ℕ, ◌≤◌, List, length, drop};

    ghost Value = { List ℕ };

    ghost view = { λ u. drop u.place u.input };

    ghost invariant = { λ u. u.place ≤ length u.input };
}

impl Remaining {
    /// All bytes of the list.
    pub(crate) fn of(input: Bytes) -> Remaining
        ensures { result ≡ input }
    {
        Remaining { input, place: 0 }
    }

    /// The bytes still to be read.
    pub(crate) fn all(&self) -> &[u8]
        ensures { result.now ≡ self.now }
    {
        &self.input.all()[self.place..]
    }

    /// Reads into the front of `room` as many bytes as fit, but at most so many, and answers how many.
    pub(crate) fn give(&mut self, room: &mut [u8], most: usize) -> usize
        requires { 0 < most }
        ensures count { result ≡ min most (min (length room.old) (length self.old)) }
        ensures bound { result ≤ length room.new }
        ensures given { room.new ≡ take result self.old ++ drop result room.old }
        ensures left { self.new ≡ drop result self.old }
        ensures consumed { self.old ≡ take result room.new ++ self.new }
        ensures end { result ≡ 0 → 0 < length room.new → self.new ≡ [] }
    {
        let n = copy_front(&self.input.all()[self.place..], room, most);
        self.place += n;
        n
    }
}
