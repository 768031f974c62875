//! The entries that a picture shows.
ghost use Rattle.std.specs.Prelude.{◌≡◌, ◌<◌, ◌==◌, length};
ghost use Rattle.std.specs.List.{slice_index_or};
ghost use Rattle.picture_core.specs.Views.{AreShownOfKind};

use crate::entry::Entry;
use std::marker::Model;

/// The entries that a picture shows, in the order of their keys.
#[derive(Debug, Drop)]
pub struct Entries {
    items: Vec<Entry>,
}

impl Model for Entries {
    ghost use Rattle.std.specs.Prelude.{List};
    ghost use Rattle.picture_core.specs.declared.entry.Entry.{Entry};

    ghost Value = { List Entry };

    ghost use Rattle.picture_core.specs.Views.{AreShownOfKind};

    ghost view = { λ e. e.items.items };

    ghost invariant = { λ e. AreShownOfKind e.items.items };
}

impl Entries {
    /// These entries.
    pub(crate) fn of(items: Vec<Entry>) -> Entries
        requires { AreShownOfKind items.items }
        ensures { result ≡ items.items }
    {
        Entries { items }
    }

    /// The number of entries.
    pub fn len(&self) -> usize
        ensures count { result ≡ length self.now }
        ensures kinds { AreShownOfKind self.now }
    {
        self.items.len()
    }

    /// Whether there is no entry.
    pub fn is_empty(&self) -> bool
        ensures { result ≡ (length self.now == 0) }
    {
        self.items.is_empty()
    }

    /// The entry at a place, counted from 0.
    pub fn at(&self, place: usize) -> &Entry
        requires { place < length self.now }
        ensures { result.now ≡ slice_index_or self.now place result.now }
    {
        &self.items[place]
    }

    /// All entries.
    pub fn all(&self) -> &[Entry]
        ensures entries { result.now ≡ self.now }
        ensures kinds { AreShownOfKind self.now }
    {
        self.items.as_slice()
    }
}
