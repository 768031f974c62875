//! Writes a whole piece into a sink.
ghost use Rattle.std.specs.Prelude.{◌≡◌, ℕ, ◌≤◌, None, length, take, OnOk, OnErr};
ghost use Rattle.std.specs.Io.KnownBytes.{Appends};
ghost use Rattle.fisb_wire.specs.Faults.{Rose};
ghost use Rattle.run_core.specs.Run.{AppendsFront, IsTakenWhole};

use fisb_wire::{Failed, Sink};

/// Writes the whole piece, or fails having written a prefix of it.
pub fn write_all<K: Sink>(sink: &mut K, piece: &[u8]) -> Result<(), Failed>
    requires { K.spare sink.old ≡ None }
    ensures whole { OnOk result (Appends (K.written sink.old) (K.written sink.new) piece.now) }
    ensures front { AppendsFront (K.written sink.old) (K.written sink.new) piece.now }
    ensures kept { OnOk result (K.faults sink.new ≡ K.faults sink.old) }
    ensures later { K.faults sink.old ≤ K.faults sink.new }
    ensures rose { OnErr result (Rose (K.faults sink.old) (K.faults sink.new)) }
    ensures complete { IsTakenWhole (K.reach sink.old) (K.written sink.old) piece.now result }
    ensures spare { K.spare sink.new ≡ None }
    ensures reach { K.reach sink.new ≡ K.reach sink.old }
{
    let mut sent = 0;
    while sent < piece.len() {
        sent += sink.write(&piece[sent..])?;
    }
    Ok(())
}
