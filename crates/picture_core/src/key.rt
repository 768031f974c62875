//! What names an entry of a picture.
ghost use Rattle.std.specs.Prelude.{◌≡◌, IfOk};
ghost use Rattle.picture_core.specs.Key.{key_cmp};
ghost use Rattle.picture_core.specs.Views.{key_view};

use radar_core::BlockKey;
use std::alloc::{AllocError, Global};
use std::cmp::Ordering;
use text_reports::TextKey;
use undo_map::Duplicate;

/// What names an entry of a picture. Radar stands before text; blocks of radar are ordered by
/// product, scale, north before south, and number, reports by type, place and third word.
#[derive(Debug, Drop, PartialEq, Eq, PartialOrd, Ord)]
pub enum Key {
    /// A block of radar.
    Radar(BlockKey),
    /// A report.
    Text(TextKey),
}

impl Duplicate for Key {
    fn duplicate(&self, alloc: Global) -> Result<Key, AllocError>
        ensures { IfOk result (λ copy. copy ≡ self.now) }
    {
        match self {
            Key::Radar(key) => Ok(Key::Radar(*key)),
            Key::Text(key) => Ok(Key::Text(key.copy(alloc)?)),
        }
    }
}

/// The order of two keys, in the words of its definition.
pub fn order_of_keys(one: &Key, other: &Key) -> Ordering
    ensures { result ≡ key_cmp (key_view one.now) (key_view other.now) }
{
    one.cmp(other)
}
