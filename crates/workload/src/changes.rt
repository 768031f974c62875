//! What is changed of a frame before it is heard.
ghost use Rattle.std.specs.Prelude.{◌≡◌, ◌<◌, [], ◌∷◌, ◌++◌, All, IfOk, length};
ghost use Rattle.uplink_weave.specs.Woven.{frame_bytes};
ghost use Rattle.workload.specs.Hearings.{frame_with_changes};

use std::alloc::{AllocError, Global};
use std::marker::Model;

/// Changes of a frame: places, from 0 to 551 in the order on the air, each with a byte that is
/// added to the one there by exclusive or. They stand in the order in which they were drawn, block
/// by block.
#[derive(Debug, Drop)]
pub struct Changes {
    items: Vec<(u16, u8)>,
}

impl Model for Changes {
    ghost use Rattle.std.specs.Prelude.{ℕ, List};

    ghost Value = { List (ℕ × ℕ) };

    ghost view = { λ c. c.items.items };
}

impl Changes {
    /// All places and bytes.
    pub fn all(&self) -> &[(u16, u8)]
        ensures { result.now ≡ self.now }
    {
        self.items.as_slice()
    }

    /// Changes a frame of 552 bytes: each byte is added to the one at its place without carry.
    pub fn add_to(&self, frame: &mut [u8])
        requires places { All (λ change. change.0 < frame_bytes) self.now }
        requires frame { length frame.old ≡ frame_bytes }
        ensures { frame.new ≡ frame_with_changes self.now frame.old }
    {
        for &(place, byte) in self.items.as_slice() {
            let place = usize::from(place);
            frame[place] ^= byte;
        }
    }

    /// No changes.
    pub(crate) fn empty(alloc: Global) -> Changes
        ensures { result ≡ [] }
    {
        Changes {
            items: Vec::new(alloc),
        }
    }

    /// Puts a change at the end.
    pub(crate) fn push(&mut self, place: u16, byte: u8) -> Result<(), AllocError>
        ensures { IfOk result (λ _. self.new ≡ self.old ++ (place, byte) ∷ []) }
    {
        self.items.push((place, byte))?;
        Ok(())
    }
}
