//! Values that last to a second, the newest of each key.
ghost use Rattle.std.specs.Prelude.{◌≡◌, ℕ, ◌+◌, ◌<◌, ◌≤◌, ◌&&◌, ◌++◌, ◌∷◌, [], List, None, Some};
ghost use Rattle.std.specs.Prelude.{IsSome};
ghost use Rattle.std.specs.Prelude.{OnErr, OnOk, filter, if◌then◌else◌, length, nat_le, nat_lt};
ghost use Rattle.std.specs.Prelude.{not, true};
ghost use Rattle.std.specs.BTreeMap.{IsOrdered, insert_entry, is_at};
ghost use Rattle.std.specs.List.Sorted.{IsStrictlySortedBy};
ghost use Rattle.std.specs.Map.{keys_of, lookup};
ghost use Rattle.std.specs.Map.Iter.{ShowsInOrder, deref_pair};
ghost use Rattle.std.specs.Option.{option_map};
ghost use Rattle.std.specs.Ordering.{is_eq};
ghost use Rattle.undo_map.specs.Ends.{HavePlaces, HasPlaceSooner, KeepsPlacesBy, all_places};
ghost use Rattle.undo_map.specs.Ends.{due_places, has_place, has_place_by};
ghost use Rattle.undo_map.specs.Ends.{place_count, with_newer};
ghost use Rattle.undo_map.specs.Steps.{before_all};

use crate::duplicate::Duplicate;
use crate::end_queue::EndQueue;
use crate::laws::{none_is_over, queues_stay};
use crate::map::UndoMap;
use crate::step::{Step, write_step};
use std::alloc::{AllocError, Global};
use std::collections::BTreeMap;
use std::collections::btree_map::Iter;
use std::marker::Model;
use std::mem;

/// What has a version, and lasts to a second.
pub trait Lasting: Drop {
    ghost version: { Self → ℕ };

    ghost end: { Self → ℕ };

    /// The moment of its version.
    fn version(&self) -> u64
        ensures { result ≡ version self.now };

    /// The second from which on it is over.
    fn end(&self) -> u64
        ensures { result ≡ end self.now };
}

/// Writes a value under a key, where none stands there that is at least as new, adds the step to
/// those that take back, and gives the key a place in the queue where it has none by the value's
/// end.
pub(crate) fn put_step<K: Duplicate, V: Lasting>(
    alloc: Global,
    entries: &mut BTreeMap<K, V>,
    steps: &mut Vec<Step<K, V>>,
    ends: &mut EndQueue<K>,
    key: K,
    value: V,
) -> Result<(), AllocError>
    requires { IsOrdered K.cmp entries.old }
    ensures written { OnOk result (entries.new.entries
        ≡ with_newer K.cmp V.version entries.old.entries key value) }
    ensures before { before_all K.cmp steps.new.items entries.new.entries
        ≡ before_all K.cmp steps.old.items entries.old.entries }
    ensures err { OnErr result (entries.new.entries ≡ entries.old.entries) }
    ensures steps_err { OnErr result (steps.new.items ≡ steps.old.items) }
    ensures ordered { IsOrdered K.cmp entries.new }
    ensures kept { KeepsPlacesBy K.cmp ends.old.places ends.new.places }
    ensures few_kept { length ends.new.places ≤ length ends.old.places }
    ensures placed { HavePlaces K.cmp V.end (all_places ends.old) entries.old.entries
        → HavePlaces K.cmp V.end (all_places ends.new) entries.new.entries }
    ensures few { place_count ends.new + length entries.old.entries
        ≤ place_count ends.old + length entries.new.entries }
{
    match entries.get_mut(&key) {
        Some(older) => replace_step(alloc, older, steps, ends, key, value),
        None => insert_step(alloc, entries, steps, ends, key, value),
    }
}

/// Puts a newer value in the place of an older one of its key.
fn replace_step<K: Duplicate, V: Lasting>(
    alloc: Global,
    older: &mut V,
    steps: &mut Vec<Step<K, V>>,
    ends: &mut EndQueue<K>,
    key: K,
    value: V,
) -> Result<(), AllocError>
    ensures written { OnOk result (older.new
        ≡ (if nat_lt (V.version older.old) (V.version value) then value else older.old)) }
    ensures steps_ok { OnOk result (steps.new.items
        ≡ (if nat_lt (V.version older.old) (V.version value)
        then steps.old.items ++ record { key = key; was = Some older.old } ∷ []
        else steps.old.items)) }
    ensures err { OnErr result (older.new ≡ older.old) }
    ensures steps_err { OnErr result (steps.new.items ≡ steps.old.items) }
    ensures kept { KeepsPlacesBy K.cmp ends.old.places ends.new.places }
    ensures few_kept { length ends.new.places ≤ length ends.old.places }
    ensures all_kept { KeepsPlacesBy K.cmp (all_places ends.old) (all_places ends.new) }
    ensures placed { (k : K) → is_eq (K.cmp key k) ≡ true
        → has_place K.cmp V.end (all_places ends.old) (k, older.old) ≡ true
        → has_place K.cmp V.end (all_places ends.new) (k, older.new) ≡ true }
    ensures few { place_count ends.new ≤ place_count ends.old }
{
    if value.version() <= older.version() {
        return Ok(());
    }
    steps.reserve(1)?;
    place_sooner(alloc, ends, &key, older.end(), value.end())?;
    let was = mem::replace(older, value);
    steps.push_reserved(Step {
        key,
        was: Some(was),
    });
    Ok(())
}

/// Gives a key that has a place by a second one by another.
fn place_sooner<K: Duplicate>(
    alloc: Global,
    ends: &mut EndQueue<K>,
    key: &K,
    by: u64,
    second: u64,
) -> Result<(), AllocError>
    ensures kept { KeepsPlacesBy K.cmp ends.old.places ends.new.places }
    ensures few_kept { length ends.new.places ≤ length ends.old.places }
    ensures all_kept { KeepsPlacesBy K.cmp (all_places ends.old) (all_places ends.new) }
    ensures placed { OnOk result ((k : K) → is_eq (K.cmp key.now k) ≡ true
        → has_place_by K.cmp (all_places ends.old) k by ≡ true
        → has_place_by K.cmp (all_places ends.new) k second ≡ true) }
    ensures few { place_count ends.new ≤ place_count ends.old }
{
    if second < by {
        ends.bring_forward(alloc, second, key)?;
    }
    Ok(())
}

/// Writes a value under a key that has none, and gives the key a place in the queue.
fn insert_step<K: Duplicate, V: Lasting>(
    alloc: Global,
    entries: &mut BTreeMap<K, V>,
    steps: &mut Vec<Step<K, V>>,
    ends: &mut EndQueue<K>,
    key: K,
    value: V,
) -> Result<(), AllocError>
    requires { IsOrdered K.cmp entries.old }
    ensures written { OnOk result
        (entries.new.entries ≡ insert_entry K.cmp entries.old.entries key value) }
    ensures before { before_all K.cmp steps.new.items entries.new.entries
        ≡ before_all K.cmp steps.old.items entries.old.entries }
    ensures err { OnErr result (entries.new.entries ≡ entries.old.entries) }
    ensures steps_err { OnErr result (steps.new.items ≡ steps.old.items) }
    ensures ordered { IsOrdered K.cmp entries.new }
    ensures kept { ends.new.places ≡ ends.old.places }
    ensures all_kept { KeepsPlacesBy K.cmp (all_places ends.old) (all_places ends.new) }
    ensures placed { OnOk result ((k : K) → is_eq (K.cmp key k) ≡ true
        → has_place K.cmp V.end (all_places ends.new) (k, value) ≡ true) }
    ensures few_ok { OnOk result (place_count ends.new ≡ place_count ends.old + 1) }
    ensures few_err { OnErr result (place_count ends.new ≡ place_count ends.old) }
{
    let place = key.duplicate(alloc)?;
    ends.reserve()?;
    let end = value.end();
    write_step(alloc, entries, steps, key, value)?;
    ends.add(end, place);
    Ok(())
}

/// Drops the entries that are over at a second, and looks at no others but those that stand in the
/// place of one that would be.
fn drop_over<K: Duplicate, V: Lasting>(map: &mut UndoMap<K, V>, ends: &mut EndQueue<K>, now: u64)
    requires unmarked { map.old.mark ≡ None }
    requires placed { HavePlaces K.cmp V.end ends.old.places map.old.entries }
    requires few { length ends.old.places ≤ length map.old.entries }
    ensures entries { map.new.entries
        ≡ filter (λ e. nat_lt now (V.end e.1)) map.old.entries }
    ensures mark { map.new.mark ≡ None }
    ensures placed { HavePlaces K.cmp V.end ends.new.places map.new.entries }
    ensures few { length ends.new.places ≤ length map.new.entries }
    ensures added { ends.new.added ≡ ends.old.added }
{
    while let Some((_, key)) = ends.take_ended(now) {
        drop_key(map, ends, key, now);
    }
    none_is_over::<K, V>();
}

/// Drops a key whose value is over at a second; where it is not over yet, the key has a place in
/// the queue at its end.
fn drop_key<K: Duplicate, V: Lasting>(
    map: &mut UndoMap<K, V>,
    ends: &mut EndQueue<K>,
    key: K,
    now: u64,
)
    requires unmarked { map.old.mark ≡ None }
    requires room { 0 < ends.old.spare }
    ensures entries { map.new.entries
        ≡ filter (λ e. not (is_eq (K.cmp key e.0) && nat_le (V.end e.1) now)) map.old.entries }
    ensures mark { map.new.mark ≡ None }
    ensures placed { (end : ℕ)
        → HavePlaces K.cmp V.end ((end, key) ∷ ends.old.places) map.old.entries
        → HavePlaces K.cmp V.end ends.new.places map.new.entries }
    ensures few { length ends.old.places + 1 ≤ length map.old.entries
        → length ends.new.places ≤ length map.new.entries }
    ensures due { due_places now ends.new.places ≡ due_places now ends.old.places }
    ensures added { ends.new.added ≡ ends.old.added }
{
    let Some(end) = end_under(map, &key) else {
        return;
    };
    if now < end {
        ends.add_again(end, key);
        return;
    }
    map.remove(&key);
}

/// The end of what stands under a key.
fn end_under<K: Duplicate, V: Lasting>(map: &UndoMap<K, V>, key: &K) -> Option<u64>
    ensures end { result ≡ option_map V.end (lookup (is_at (K.cmp key.now)) map.now.entries) }
    ensures ordered { IsStrictlySortedBy K.cmp (keys_of map.now.entries) }
{
    match map.get(key) {
        Some(value) => Some(value.end()),
        None => None,
    }
}

/// Values that last to a second, the newest of each key, in the order of the keys; and the mark to
/// which they can be taken back.
#[derive(Drop)]
pub struct LastingMap<K: Duplicate, V: Lasting> {
    map: UndoMap<K, V>,
    /// Each key has a place here, at a second that is no later than the end of its value, now and
    /// at the mark; so a purge finds what is over by its end. No key that is not there has one.
    ends: EndQueue<K>,
}

impl<K: Duplicate, V: Lasting> Model for LastingMap<K, V> {
    ghost use Rattle.undo_map.specs.Ends.{IsQueueOfEnds};
    ghost use Rattle.undo_map.specs.Marked.{Marked};

    ghost Value = { Marked K V };

    ghost view = { λ m. m.map };

    ghost invariant = { λ m. IsQueueOfEnds K.cmp V.end m.ends m.map };
}

impl<K: Duplicate, V: Lasting> LastingMap<K, V> {
    /// An empty map without a mark.
    pub fn new(alloc: Global) -> LastingMap<K, V>
        ensures { result ≡ record { entries = []; mark = None } }
    {
        LastingMap {
            map: UndoMap::new(alloc),
            ends: EndQueue::new(alloc),
        }
    }

    /// How many keys have a value.
    pub fn len(&self) -> usize
        ensures len { result ≡ length self.now.entries }
        ensures ordered { IsStrictlySortedBy K.cmp (keys_of self.now.entries) }
    {
        self.map.len()
    }

    /// How many places the keys have in the queue by which a purge finds what is over.
    pub fn places(&self) -> usize
        ensures { result ≤ length self.now.entries }
    {
        self.ends.len()
    }

    /// The entries, in the order of their keys.
    pub fn iter(&self) -> Iter<'_, K, V>
        ensures rest { result ≡ self.now.entries }
        ensures runs { ShowsInOrder (deref_pair {K = K} {X = V}) }
        ensures ordered { IsStrictlySortedBy K.cmp (keys_of self.now.entries) }
    {
        self.map.iter()
    }

    /// Writes a value under a key, where none stands there that is at least as new.
    ///
    /// # Errors
    ///
    /// Where memory runs out; then all is as it was.
    pub fn put(&mut self, key: K, value: V) -> Result<(), AllocError>
        ensures ok { OnOk result
            (self.new.entries ≡ with_newer K.cmp V.version self.old.entries key value) }
        ensures mark { self.new.mark ≡ self.old.mark }
        ensures err { OnErr result (self.new ≡ self.old) }
        ensures ordered { IsStrictlySortedBy K.cmp (keys_of self.new.entries) }
    {
        self.map.put(&mut self.ends, key, value)
    }

    /// Drops the entries that are over at a second.
    pub fn purge(&mut self, now: u64)
        requires { self.old.mark ≡ None }
        ensures entries { self.new.entries
            ≡ filter (λ e. nat_lt now (V.end e.1)) self.old.entries }
        ensures mark { self.new.mark ≡ None }
    {
        queues_stay::<K, V>();
        self.ends.settle();
        drop_over(&mut self.map, &mut self.ends, now);
    }

    /// Sets a mark at the entries as they are.
    pub fn mark(&mut self)
        requires { self.old.mark ≡ None }
        ensures { self.new ≡ record self.old { mark = Some self.old.entries } }
    {
        queues_stay::<K, V>();
        self.ends.settle();
        self.map.mark();
    }

    /// Takes the entries back to the mark, which goes.
    pub fn undo(&mut self)
        requires { IsSome self.old.mark }
        ensures entries { self.old.mark ≡ Some self.new.entries }
        ensures mark { self.new.mark ≡ None }
    {
        queues_stay::<K, V>();
        self.map.undo();
        self.ends.undo();
    }

    /// Lets the mark go and keeps the entries.
    pub fn settle(&mut self)
        requires { IsSome self.old.mark }
        ensures { self.new ≡ record self.old { mark = None } }
    {
        queues_stay::<K, V>();
        self.map.settle();
    }
}
