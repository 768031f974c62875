//! What a picture keeps under its keys.
ghost use Rattle.std.specs.Prelude.{◌≡◌, IfOk, OnOk, OnErr, None, map};
ghost use Rattle.picture_core.specs.Kept.{live_entries, put};
ghost use Rattle.picture_core.specs.Views.{entry_view, kept_entry, marked_entries, shown_value};

use crate::entry::Entry;
use crate::key::Key;
use crate::shown::Shown;
use fisb_time::Moment;
use std::alloc::{AllocError, Global};
use undo_map::{Duplicate, Lasting, LastingMap};

/// What a picture keeps under a key: a version, the second from which on it is shown no more,
/// and its value.
#[derive(Drop)]
pub(crate) struct Kept {
    pub(crate) version: Moment,
    pub(crate) until: u64,
    pub(crate) value: Shown,
}

impl Lasting for Kept {
    ghost version = { λ kept. kept.version };

    ghost end = { λ kept. kept.until };

    fn version(&self) -> u64 {
        self.version.seconds()
    }

    fn end(&self) -> u64 {
        self.until
    }
}

/// Puts a version under its key, where none is kept that is at least as new.
pub(crate) fn put_kept(
    kept: &mut LastingMap<Key, Kept>,
    key: Key,
    new: Kept,
) -> Result<(), AllocError>
    ensures ok { OnOk result ((marked_entries kept.new).entries
        ≡ put (kept_entry key new) (marked_entries kept.old).entries) }
    ensures mark { kept.new.mark ≡ kept.old.mark }
    ensures err { OnErr result (kept.new ≡ kept.old) }
{
    kept.put(key, new)?;
    Ok(())
}

/// What is shown of the entries that have not ended at a moment, in the order of their keys.
pub(crate) fn live_pairs(
    kept: &LastingMap<Key, Kept>,
    alloc: Global,
    moment: Moment,
) -> Result<Vec<Entry>, AllocError>
    ensures { IfOk result (λ shown. map entry_view shown.items
        ≡ map shown_value (live_entries moment (marked_entries kept.now).entries)) }
{
    let now = moment.seconds();
    let mut shown = Vec::new(alloc);
    for (key, found) in kept.iter() {
        if now < found.until {
            shown.push(entry_of(alloc, key, found)?)?;
        }
    }
    Ok(shown)
}

/// An entry as it is shown.
fn entry_of(alloc: Global, key: &Key, kept: &Kept) -> Result<Entry, AllocError>
    ensures { IfOk result (λ entry. entry_view entry ≡ shown_value (kept_entry key.now kept.now)) }
{
    Ok(Entry {
        key: key.duplicate(alloc)?,
        version: kept.version,
        value: kept.value.copy(alloc)?,
    })
}

/// Drops the entries that have ended at a moment.
pub(crate) fn drop_ended(kept: &mut LastingMap<Key, Kept>, moment: Moment)
    requires { kept.old.mark ≡ None }
    ensures entries { (marked_entries kept.new).entries
        ≡ live_entries moment (marked_entries kept.old).entries }
    ensures mark { kept.new.mark ≡ None }
{
    kept.purge(moment.seconds());
}
