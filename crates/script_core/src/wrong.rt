//! What is heard wrong of a frame.
ghost use Rattle.std.specs.Prelude.{◌≡◌, ◌<◌, length, slice_index_or};

use std::marker::Model;

/// The wrong bytes of a frame: each place, counted from 0 in the order on the air, and the byte that is heard there.
#[derive(Debug, Drop)]
pub struct Wrong {
    items: Vec<(u16, u8)>,
}

impl Model for Wrong {
    ghost use Rattle.std.specs.Prelude.{ℕ, List};

    ghost Value = { List (ℕ × ℕ) };

    ghost view = { λ w. w.items.items };
}

impl Wrong {
    /// The list of the vector's pairs.
    pub(crate) fn of(items: Vec<(u16, u8)>) -> Wrong
        ensures { result ≡ items.items }
    {
        Wrong { items }
    }

    /// How many wrong bytes there are.
    pub fn len(&self) -> usize
        ensures { result ≡ length self.now }
    {
        self.items.len()
    }

    /// The place and the byte at a place of the list below `len`, counted from 0.
    pub fn at(&self, place: usize) -> (u16, u8)
        requires { place < length self.now }
        ensures { result ≡ slice_index_or self.now place result }
    {
        self.items[place]
    }

    /// All places and bytes.
    pub fn all(&self) -> &[(u16, u8)]
        ensures { result.now ≡ self.now }
    {
        self.items.as_slice()
    }
}
