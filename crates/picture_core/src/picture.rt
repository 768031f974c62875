//! The picture and its calls.
ghost use Rattle.std.specs.Prelude.{◌≡◌, ◌≤◌, IsSome, IfOk, OnOk, OnErr, Some, None, [], length};
ghost use Rattle.std.specs.Prelude.{map};
ghost use Rattle.picture_core.specs.Entry.{AreOfKind, IsOfKind};
ghost use Rattle.picture_core.specs.Kept.{IsRising, keys, live_entries, put};
ghost use Rattle.picture_core.specs.Marked.{MarkedEntries};
ghost use Rattle.picture_core.specs.Views.{entry_view, key_view, shown_value, value_view};

use crate::entries::Entries;
use crate::kept::{Kept, drop_ended, live_pairs, put_kept};
use crate::key::Key;
use crate::shown::Shown;
use fisb_time::Moment;
use std::alloc::{AllocError, Global};
use std::marker::Model;
use undo_map::LastingMap;

/// The newest versions that came, at most one under each key.
#[derive(Drop)]
pub struct Picture {
    kept: LastingMap<Key, Kept>,
}

impl Model for Picture {
    ghost use Rattle.picture_core.specs.Marked.{MarkedEntries};

    ghost Value = { MarkedEntries };

    ghost use Rattle.picture_core.specs.Views.{AreMarkedOfKind, marked_entries};

    ghost view = { λ p. marked_entries p.kept };

    ghost invariant = { λ p. AreMarkedOfKind (marked_entries p.kept) };
}

impl Picture {
    /// A picture of nothing, without a mark.
    pub fn new(alloc: Global) -> Picture
        ensures { result ≡ record { entries = []; mark = None } }
    {
        Picture {
            kept: LastingMap::new(alloc),
        }
    }

    /// How many entries are kept.
    pub fn len(&self) -> usize
        ensures count { result ≡ length self.now.entries }
        ensures rising { IsRising (keys self.now.entries) }
        ensures kinds { AreOfKind self.now.entries }
    {
        self.kept.len()
    }

    /// How many places the keys have in the queue by which a purge finds what has ended.
    pub fn places(&self) -> usize
        ensures { result ≤ length self.now.entries }
    {
        self.kept.places()
    }

    /// Puts a version under a key, where no version is kept that is at least as new.
    ///
    /// # Errors
    ///
    /// Where memory runs out; then all is as it was.
    pub fn put(
        &mut self,
        key: Key,
        version: Moment,
        until: u64,
        value: Shown,
    ) -> Result<(), AllocError>
        requires { IsOfKind (key_view key) (value_view value) }
        ensures ok { OnOk result (self.new.entries ≡ put (record {
          key = key_view key;
          version = version;
          until = until;
          value = value_view value;
        }) self.old.entries) }
        ensures mark { self.new.mark ≡ self.old.mark }
        ensures err { OnErr result (self.new ≡ self.old) }
    {
        put_kept(
            &mut self.kept,
            key,
            Kept {
                version,
                until,
                value,
            },
        )
    }

    /// The entries that have not ended at a moment, in the order of their keys.
    ///
    /// # Errors
    ///
    /// Where memory runs out.
    pub fn at(&self, alloc: Global, moment: Moment) -> Result<Entries, AllocError>
        ensures { IfOk result (λ shown. map entry_view shown
            ≡ map shown_value (live_entries moment self.now.entries)) }
    {
        Ok(Entries::of(live_pairs(&self.kept, alloc, moment)?))
    }

    /// Drops the entries that have ended at a moment.
    pub fn purge(&mut self, moment: Moment)
        requires { self.old.mark ≡ None }
        ensures entries { self.new.entries ≡ live_entries moment self.old.entries }
        ensures mark { self.new.mark ≡ None }
    {
        drop_ended(&mut self.kept, moment);
    }

    /// Sets a mark at the entries as they are.
    pub fn mark(&mut self)
        requires { self.old.mark ≡ None }
        ensures { self.new ≡ record self.old { mark = Some self.old.entries } }
    {
        self.kept.mark();
    }

    /// Takes the entries back to the mark, which goes.
    pub fn undo(&mut self)
        requires { IsSome self.old.mark }
        ensures entries { self.old.mark ≡ Some self.new.entries }
        ensures mark { self.new.mark ≡ None }
    {
        self.kept.undo();
    }

    /// Lets the mark go and keeps the entries.
    pub fn settle(&mut self)
        requires { IsSome self.old.mark }
        ensures { self.new ≡ record self.old { mark = None } }
    {
        self.kept.settle();
    }
}
