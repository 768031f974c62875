//! The map and its calls.
ghost use Rattle.std.specs.Prelude.{◌≡◌, ◌+◌, ◌≤◌, IsSome, IfOk, OnOk, OnErr, Some, None, length};
ghost use Rattle.std.specs.Prelude.{[], is_some, true};
ghost use Rattle.std.specs.BTreeMap.{insert_entry, is_at};
ghost use Rattle.std.specs.List.Sorted.{IsStrictlySortedBy};
ghost use Rattle.std.specs.Map.{keys_of, lookup, remove_entry};
ghost use Rattle.std.specs.Map.Iter.{ShowsInOrder, deref_pair};
ghost use Rattle.std.specs.Option.{option_copied};
ghost use Rattle.undo_map.specs.Ends.{IsQueueOfEnds, with_newer};
ghost use Rattle.undo_map.specs.Marked.{with_all};

use crate::duplicate::Duplicate;
use crate::end_queue::EndQueue;
use crate::lasting::{Lasting, put_step};
use crate::step::{Step, take_all_back, write_all_steps, write_step};
use std::alloc::{AllocError, Global};
use std::collections::BTreeMap;
use std::collections::btree_map::Iter;
use std::marker::Model;

/// Values under keys, in the order of the keys, and the mark to which they can be taken back.
#[derive(Drop)]
pub struct UndoMap<K: Duplicate, V> {
    alloc: Global,
    entries: BTreeMap<K, V>,
    is_marked: bool,
    /// The steps since the mark. Their room is kept from one mark to the next.
    steps: Vec<Step<K, V>>,
}

impl<K: Duplicate, V> Model for UndoMap<K, V> {
    ghost use Rattle.std.specs.BTreeMap.{IsOrdered};
    ghost use Rattle.std.specs.Prelude.{◌≡◌, if◌then◌else◌, false, Some, None, []};
    ghost use Rattle.undo_map.specs.Marked.{Marked};

    ghost Value = { Marked K V };

    ghost use Rattle.undo_map.specs.Steps.{before_all};

    ghost view = { λ m. record {
      entries = m.entries.entries;
      mark = if m.is_marked then Some (before_all K.cmp m.steps.items m.entries.entries) else None;
    } };

    ghost invariant = { λ m. IsOrdered K.cmp m.entries
        × (m.is_marked ≡ false → m.steps.items ≡ []) };
}

impl<K: Duplicate, V: Drop> UndoMap<K, V> {
    /// An empty map without a mark.
    pub fn new(alloc: Global) -> UndoMap<K, V>
        ensures { result ≡ record { entries = []; mark = None } }
    {
        UndoMap {
            alloc,
            entries: BTreeMap::new(alloc),
            is_marked: false,
            steps: Vec::new(alloc),
        }
    }

    /// How many keys have a value.
    pub fn len(&self) -> usize
        ensures len { result ≡ length self.now.entries }
        ensures ordered { IsStrictlySortedBy K.cmp (keys_of self.now.entries) }
    {
        self.entries.len()
    }

    /// The value under a key.
    pub fn get(&self, key: &K) -> Option<&V>
        ensures value { option_copied result
            ≡ lookup (is_at (K.cmp key.now)) self.now.entries }
        ensures ordered { IsStrictlySortedBy K.cmp (keys_of self.now.entries) }
    {
        self.entries.get(key)
    }

    /// Writes a value under a key; with a mark, what stood there can be taken back.
    ///
    /// # Errors
    ///
    /// Where memory runs out; then all is as it was.
    pub fn write(&mut self, key: K, value: V) -> Result<(), AllocError>
        ensures ok { OnOk result
            (self.new.entries ≡ insert_entry K.cmp self.old.entries key value) }
        ensures more { OnOk result (lookup (is_at (K.cmp key)) self.old.entries ≡ None
            → length self.new.entries ≡ length self.old.entries + 1) }
        ensures mark { self.new.mark ≡ self.old.mark }
        ensures err { OnErr result (self.new ≡ self.old) }
        ensures ordered { IsStrictlySortedBy K.cmp (keys_of self.new.entries) }
    {
        if self.is_marked {
            return write_step(self.alloc, &mut self.entries, &mut self.steps, key, value);
        }
        self.entries.insert(key, value)?;
        Ok(())
    }

    /// Writes values under keys in turn, all of them or none.
    ///
    /// # Errors
    ///
    /// Where memory runs out; then all is as it was.
    pub fn write_all(&mut self, pairs: Vec<(K, V)>) -> Result<(), AllocError>
        ensures ok { OnOk result
            (self.new.entries ≡ with_all K.cmp self.old.entries pairs.items) }
        ensures more { OnOk result ((key : K)
            → lookup (is_at (K.cmp key)) self.old.entries ≡ None
            → is_some (lookup (is_at (K.cmp key)) self.new.entries) ≡ true
            → length self.old.entries + 1 ≤ length self.new.entries) }
        ensures mark { self.new.mark ≡ self.old.mark }
        ensures err { OnErr result (self.new ≡ self.old) }
        ensures ordered { IsStrictlySortedBy K.cmp (keys_of self.new.entries) }
    {
        if self.is_marked {
            return write_all_steps(self.alloc, &mut self.entries, &mut self.steps, pairs);
        }
        let mut steps = Vec::new(self.alloc);
        write_all_steps(self.alloc, &mut self.entries, &mut steps, pairs)
    }

    /// Removes what stands under a key.
    pub fn remove(&mut self, key: &K)
        requires { self.old.mark ≡ None }
        ensures entries { self.new.entries
            ≡ remove_entry (is_at (K.cmp key.now)) self.old.entries }
        ensures few { length self.old.entries ≤ length self.new.entries + 1 }
        ensures mark { self.new.mark ≡ None }
        ensures ordered { IsStrictlySortedBy K.cmp (keys_of self.new.entries) }
        ensures was_ordered { IsStrictlySortedBy K.cmp (keys_of self.old.entries) }
    {
        let _ = self.entries.remove(key);
    }

    /// The entries, in the order of their keys.
    pub fn iter(&self) -> Iter<'_, K, V>
        ensures rest { result ≡ self.now.entries }
        ensures runs { ShowsInOrder (deref_pair {K = K} {X = V}) }
        ensures ordered { IsStrictlySortedBy K.cmp (keys_of self.now.entries) }
    {
        self.entries.iter()
    }

    /// Sets a mark at the entries as they are.
    pub fn mark(&mut self)
        requires { self.old.mark ≡ None }
        ensures { self.new ≡ record self.old { mark = Some self.old.entries } }
    {
        self.is_marked = true;
    }

    /// Takes the entries back to the mark, which goes.
    pub fn undo(&mut self)
        requires { IsSome self.old.mark }
        ensures entries { self.old.mark ≡ Some self.new.entries }
        ensures mark { self.new.mark ≡ None }
        ensures ordered { IsStrictlySortedBy K.cmp (keys_of self.new.entries) }
    {
        take_all_back(&mut self.entries, &mut self.steps);
        self.is_marked = false;
    }

    /// Lets the mark go and keeps the entries.
    pub fn settle(&mut self)
        requires { IsSome self.old.mark }
        ensures { self.new ≡ record self.old { mark = None } }
    {
        self.steps.clear();
        self.is_marked = false;
    }
}

impl<K: Duplicate, V: Lasting> UndoMap<K, V> {
    /// Writes a value under a key, where none stands there that is at least as new, and gives the
    /// key a place in the queue where it has none by the value's end.
    pub(crate) fn put(&mut self, ends: &mut EndQueue<K>, key: K, value: V) -> Result<(), AllocError>
        ensures ok { OnOk result
            (self.new.entries ≡ with_newer K.cmp V.version self.old.entries key value) }
        ensures mark { self.new.mark ≡ self.old.mark }
        ensures err { OnErr result (self.new ≡ self.old) }
        ensures ordered { IsStrictlySortedBy K.cmp (keys_of self.new.entries) }
        ensures placed { IsQueueOfEnds K.cmp V.end ends.old self.old
            → IsQueueOfEnds K.cmp V.end ends.new self.new }
    {
        if self.is_marked {
            return put_step(
                self.alloc,
                &mut self.entries,
                &mut self.steps,
                ends,
                key,
                value,
            );
        }
        let mut steps = Vec::new(self.alloc);
        put_step(self.alloc, &mut self.entries, &mut steps, ends, key, value)
    }
}
