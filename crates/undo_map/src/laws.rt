//! Laws of the definitions, for the crates above: each is the contract of a function that does
//! nothing.
ghost use Rattle.undo_map.specs.Ends.{NoneIsOver, OthersHavePlaces, QueuesStay};

/// The law that no entry is over by a second, where each has a place by its end and no place has
/// come.
#[inline]
pub fn none_is_over<K, V>()
    ensures { NoneIsOver K V }
{}

/// The laws that a queue of entries stays one where a mark is set, is undone or is settled.
#[inline]
pub fn queues_stay<K, V>()
    ensures { QueuesStay K V }
{}

/// The law that the entries that are left without a key have places, where one of the key's was
/// taken out.
#[inline]
pub fn others_have_places<K: Ord, V>()
    ensures { OthersHavePlaces K V K.cmp }
{}
