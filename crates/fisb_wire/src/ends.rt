//! What every source and every sink keeps.
ghost use Rattle.std.specs.Prelude.{◌≡◌, ℕ, ◌-◌, ◌^◌, ◌≤◌, List, length, Option, OnOk};
ghost use Rattle.std.specs.Io.{ReadsAtMost};
ghost use Rattle.std.specs.Io.KnownBytes.{ReadConsumes, WriteAppends};
ghost use Rattle.fisb_wire.specs.Faults.{HasCause};
ghost use Rattle.fisb_wire.specs.Ends.{TakesSome, FitsSpare, SpendsTaken, IsReached};

/// A read or a write that failed. Nothing was then read or written, and the source or the sink
/// counts one fault more.
#[derive(Clone, Copy, Debug, PartialEq, Eq)]
pub struct Failed;

/// Where bytes come from.
pub trait Source {
    // The bytes still to come, where the source tells them.
    ghost left: { Self → Option (List ℕ) };

    // How many reads failed: each counts one, and no other call counts.
    ghost faults: { Self → ℕ };

    /// Reads into the front of `room`, and answers how many bytes it read. 0 in a room that is not
    /// empty is the end of the input.
    fn read(&mut self, room: &mut [u8]) -> Result<usize, Failed>
        ensures bound { ReadsAtMost result room.new }
        // At an answer of 0 in a room that is not empty no byte is left, and only there.
        ensures bytes { ReadConsumes (left self.old) (left self.new) result room.new }
        ensures cause { HasCause (faults self.old) (faults self.new) result }
        ensures kept { OnOk result (faults self.new ≡ faults self.old) };

    // The count fits 64 bits, and stands still at their end.
    ghost bounded: { (source : Self) → faults source ≤ 2 ^ 64 - 1 };
}

/// Where bytes go.
pub trait Sink {
    // The bytes taken so far, where the sink tells them.
    ghost written: { Self → Option (List ℕ) };

    // How many writes failed: each counts one, and no other call counts.
    ghost faults: { Self → ℕ };

    // How many bytes the caller may still write, or none where the sink asks no room of its caller.
    ghost spare: { Self → Option ℕ };

    // How many bytes the sink surely takes before a write of it fails, where that is known.
    ghost reach: { Self → Option ℕ };

    /// Takes bytes from the front of `piece`, at least one where there is one, and answers how many.
    /// Where the sink has a spare room, the piece has to fit it.
    fn write(&mut self, piece: &[u8]) -> Result<usize, Failed>
        requires { FitsSpare (spare self.old) (length piece.now) }
        ensures some { TakesSome result (length piece.now) }
        ensures bytes { WriteAppends (written self.old) (written self.new) result piece.now }
        ensures spare { SpendsTaken (spare self.old) (spare self.new) result }
        ensures reach { reach self.new ≡ reach self.old }
        ensures cause { HasCause (faults self.old) (faults self.new) result }
        ensures kept { OnOk result (faults self.new ≡ faults self.old) };

    // The count fits 64 bits, and stands still at their end.
    ghost bounded: { (sink : Self) → faults sink ≤ 2 ^ 64 - 1 };

    // Where there is a reach, the bytes are known, and there are faults only once so many were taken.
    ghost reached: { (sink : Self) → IsReached (reach sink) (written sink) (faults sink) };
}
