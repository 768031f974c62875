//! Keys by the second at which they are to be looked at.
ghost use Rattle.std.specs.Prelude.{◌≡◌, ℕ, ◌<◌, ◌≤◌, ◌∷◌, [], All, IfNone, IfSome, IsSomeAnd};
ghost use Rattle.std.specs.Prelude.{OnOk, OnSome};
ghost use Rattle.std.specs.Prelude.{IsPermutation, length, map, nat_eq, slice_get, true, false};
ghost use Rattle.std.specs.BinaryHeap.{IsHeap, heap_capacity, heap_items, heap_len};
ghost use Rattle.std.specs.Cmp.{partial_order_from_own_ties};
ghost use Rattle.std.specs.Cmp.Rules.{comparing};
ghost use Rattle.std.specs.Ordering.{as_partial_cmp, nat_cmp};
ghost use Rattle.std.proofs.Common.{rules};
ghost use Rattle.undo_map.specs.Ends.{HasAdded, HasLeft, HasPlaceSooner, HasRoom, KeepsPlaces};
ghost use Rattle.undo_map.specs.Ends.{KeepsPlacesBy};
ghost use Rattle.undo_map.specs.Ends.{all_places, due_places, place_count};

use crate::duplicate::Duplicate;
use std::alloc::{AllocError, Global};
use std::cmp::Ordering;
use std::collections::BinaryHeap;
use std::marker::Model;

/// A key, and the second at which it is to be looked at. The earliest is the greatest.
#[derive(Drop)]
struct Place<K> {
    end: u64,
    key: K,
}

impl<K> PartialEq for Place<K> {
    ghost eq = { λ a b. nat_eq a.end b.end };

    ghost laws = { Prim.search (comparing, rules) };

    fn eq(&self, other: &Place<K>) -> bool {
        self.end == other.end
    }
}

impl<K> Eq for Place<K> {
    ghost laws = { Prim.search (comparing, rules) };
}

impl<K> Ord for Place<K> {
    ghost cmp = { λ a b. nat_cmp b.end a.end };

    ghost total = { Prim.search (comparing, rules) };

    ghost matches_partial_cmp = { Prim.search (comparing, rules) };

    ghost matches_eq = { Prim.search (comparing, rules) };

    fn cmp(&self, other: &Place<K>) -> Ordering {
        other.end.cmp(&self.end)
    }
}

impl<K> PartialOrd for Place<K> {
    ghost partial_cmp = { as_partial_cmp (λ a b. nat_cmp b.end a.end) };

    ghost laws = { partial_order_from_own_ties
        (Prim.search (comparing, rules)) (Prim.search (comparing, rules)) };

    fn partial_cmp(&self, other: &Place<K>) -> Option<Ordering> {
        Some(self.cmp(other))
    }
}

/// Keys, each with the second at which it is to be looked at, and the mark to which they can be
/// taken back. A key may have several places.
#[derive(Drop)]
pub struct EndQueue<K> {
    places: BinaryHeap<Place<K>>,
    /// The places since the mark. Among the others there is room for all of them.
    added: BinaryHeap<Place<K>>,
}

impl<K> Model for EndQueue<K> {
    ghost use Rattle.std.specs.Prelude.{map, ◌+◌, ◌-◌, ◌≤◌};
    ghost use Rattle.std.specs.BinaryHeap.{IsHeap, heap_capacity, heap_items, heap_len};
    ghost use Rattle.std.specs.Ordering.{nat_cmp};
    ghost use Rattle.undo_map.specs.Ends.{Queue};

    ghost Value = { Queue K };

    ghost view = { λ q. record {
      places = map (λ place. (place.end, place.key)) (heap_items q.places);
      added = map (λ place. (place.end, place.key)) (heap_items q.added);
      spare = heap_capacity q.places - (heap_len q.places + heap_len q.added);
      added_spare = heap_capacity q.added - heap_len q.added;
    } };

    ghost invariant = { λ q. IsHeap (λ a b. nat_cmp b.end a.end) (heap_items q.places)
        × IsHeap (λ a b. nat_cmp b.end a.end) (heap_items q.added)
        × (heap_len q.places + heap_len q.added ≤ heap_capacity q.places)
        × (heap_len q.added ≤ heap_capacity q.added) };
}

impl<K: Drop> EndQueue<K> {
    /// A queue without places.
    pub fn new(alloc: Global) -> EndQueue<K>
        ensures places { result.places ≡ [] }
        ensures added { result.added ≡ [] }
    {
        EndQueue {
            places: BinaryHeap::new(alloc),
            added: BinaryHeap::new(alloc),
        }
    }

    /// How many places there are.
    pub fn len(&self) -> usize
        ensures { result ≡ place_count self.now }
    {
        self.places.as_slice().len() + self.added.as_slice().len()
    }

    /// Makes room for one more place.
    ///
    /// # Errors
    ///
    /// Where memory runs out.
    pub fn reserve(&mut self) -> Result<(), AllocError>
        ensures places { self.new.places ≡ self.old.places }
        ensures added { self.new.added ≡ self.old.added }
        ensures room { OnOk result (HasRoom self.new) }
    {
        self.places.reserve(self.added.len() + 1)?;
        self.added.reserve(1)?;
        Ok(())
    }

    /// Adds a place, for which there is room.
    pub fn add(&mut self, end: u64, key: K)
        requires { HasRoom self.old }
        ensures places { self.new.places ≡ self.old.places }
        ensures added { IsPermutation ((end, key) ∷ self.old.added) self.new.added }
        ensures kept { KeepsPlaces (all_places self.old) (all_places self.new) }
        ensures has { HasAdded (end, key) (all_places self.new) }
    {
        let _ = self.added.push(Place { end, key });
    }

    /// Puts a place back among those that are settled, in the room of one that was taken out.
    pub fn add_again(&mut self, end: u64, key: K)
        requires { 0 < self.old.spare }
        ensures places { IsPermutation ((end, key) ∷ self.old.places) self.new.places }
        ensures kept { KeepsPlaces self.old.places self.new.places }
        ensures has { HasAdded (end, key) self.new.places }
        ensures due { (now : ℕ) → now < end
            → due_places now self.new.places ≡ due_places now self.old.places }
        ensures added { self.new.added ≡ self.old.added }
    {
        let _ = self.places.push(Place { end, key });
    }

    /// Takes a place out whose second has come, where there is one; it leaves room for another.
    pub fn take_ended(&mut self, now: u64) -> Option<(u64, K)>
        ensures ended { IfSome result (λ place. place.0 ≤ now) }
        ensures taken { IfSome result (λ place.
            IsPermutation self.old.places (place ∷ self.new.places)) }
        ensures room { OnSome result (0 < self.new.spare) }
        ensures left { IfSome result (λ place. HasLeft place self.old.places self.new.places) }
        ensures due { OnSome result
            (due_places now self.new.places < due_places now self.old.places) }
        ensures none { IfNone result (All (λ place. now < place.0) self.new.places) }
        ensures unchanged { IfNone result (self.new.places ≡ self.old.places) }
        ensures added { self.new.added ≡ self.old.added }
    {
        if !is_ended(&self.places, now) {
            return None;
        }
        let Some(Place { end, key }) = self.places.pop() else {
            return None;
        };
        Some((end, key))
    }

    /// Keeps the places that were added, and sets the mark at all of them.
    pub fn settle(&mut self)
        ensures places { IsPermutation (all_places self.old) self.new.places }
        ensures added { self.new.added ≡ [] }
    {
        let _ = self.places.append(&mut self.added);
    }

    /// Takes the places back to the mark.
    pub fn undo(&mut self)
        ensures places { self.new.places ≡ self.old.places }
        ensures added { self.new.added ≡ [] }
    {
        self.added.clear();
    }
}

impl<K: Duplicate> EndQueue<K> {
    /// Gives a key a place by a second, where it has a later one.
    ///
    /// # Errors
    ///
    /// Where memory runs out; then the places are as they were.
    pub(crate) fn bring_forward(
        &mut self,
        alloc: Global,
        second: u64,
        key: &K,
    ) -> Result<(), AllocError>
        ensures kept { KeepsPlacesBy K.cmp self.old.places self.new.places }
        ensures all_kept { KeepsPlacesBy K.cmp (all_places self.old) (all_places self.new) }
        ensures sooner { OnOk result (HasPlaceSooner K.cmp key.now second
            (all_places self.old) (all_places self.new)) }
        ensures few { length self.new.places ≤ length self.old.places }
        ensures few_added { length self.new.added ≤ length self.old.added }
    {
        let first = key.duplicate(alloc)?;
        let further = key.duplicate(alloc)?;
        bring_places_forward(&mut self.places, second, first);
        bring_places_forward(&mut self.added, second, further);
        Ok(())
    }
}

/// Gives a key a place by a second, where it has a later one among these.
fn bring_places_forward<K: Duplicate>(places: &mut BinaryHeap<Place<K>>, second: u64, key: K)
    requires heap { IsHeap (λ a b. nat_cmp b.end a.end) (heap_items places.old) }
    requires fits { heap_len places.old ≤ heap_capacity places.old }
    ensures heap { IsHeap (λ a b. nat_cmp b.end a.end) (heap_items places.new) }
    ensures kept { KeepsPlacesBy K.cmp
        (map (λ place. (place.end, place.key)) (heap_items places.old))
        (map (λ place. (place.end, place.key)) (heap_items places.new)) }
    ensures sooner { HasPlaceSooner K.cmp key second
        (map (λ place. (place.end, place.key)) (heap_items places.old))
        (map (λ place. (place.end, place.key)) (heap_items places.new)) }
    ensures few { length (heap_items places.new) ≤ length (heap_items places.old) }
    ensures len { heap_len places.new ≤ heap_len places.old }
    ensures capacity { heap_capacity places.old ≤ heap_capacity places.new }
{
    let before = places.as_slice().len();
    places.retain(|place| place.end <= second || !place.key.cmp(&key).is_eq());
    if places.as_slice().len() < before {
        let _ = places.push(Place { end: second, key });
    }
}

/// Whether the second of the first place has come.
fn is_ended<K>(places: &BinaryHeap<Place<K>>, now: u64) -> bool
    requires { IsHeap (λ a b. nat_cmp b.end a.end) (heap_items places.now) }
    ensures ended { result ≡ true
        → IsSomeAnd (slice_get (heap_items places.now) 0) (λ place. place.end ≤ now) }
    ensures none { result ≡ false
        → All (λ place. now < place.end) (heap_items places.now) }
{
    match places.peek() {
        Some(first) => first.end <= now,
        None => false,
    }
}
