use std::alloc::{AllocError, Global};
use std::test::Fail;
use undo_map::{Duplicate, EndQueue, Lasting, LastingMap, UndoMap};

/// A key for tests.
#[derive(Debug, Drop, PartialEq, Eq, PartialOrd, Ord)]
struct Name(u8);

impl Duplicate for Name {
    fn duplicate(&self, _alloc: Global) -> Result<Name, AllocError> {
        Ok(Name(self.0))
    }
}

/// Writes two keys after a mark, one of them over a value, and answers what stands under it
/// after the mark was undone.
fn undone<K: Duplicate>(alloc: Global, key: K, further: K) -> Result<Option<u8>, AllocError> {
    let copy = key.duplicate(alloc)?;
    let again = key.duplicate(alloc)?;
    let mut map = UndoMap::new(alloc);
    map.write(key, 1)?;
    map.mark();
    map.write(copy, 2)?;
    map.write(further, 3)?;
    map.undo();
    Ok(map.get(&again).copied())
}

#[test]
fn writes_are_taken_back(rt: HostRuntime) -> Result<(), Fail> {
    assert_eq!(rt; undone(rt.alloc(), Name(7), Name(3))?, Some(1));
    Ok(())
}

#[test]
fn pairs_are_written_and_stay(rt: HostRuntime) -> Result<(), Fail> {
    let mut map = UndoMap::new(rt.alloc());
    let mut pairs = Vec::new(rt.alloc());
    for number in 0..100 {
        pairs.push((Name(200 - number), number))?;
    }
    map.mark();
    map.write_all(pairs)?;
    assert_eq!(rt; map.len(), 100);
    map.settle();
    let mut kept = Vec::new(rt.alloc());
    for (name, value) in map.iter() {
        if *value < 2 {
            kept.push((name.0, *value))?;
        }
    }
    assert_eq!(rt; kept.as_slice(), [(199, 1), (200, 0)].as_slice());
    Ok(())
}

/// A value for tests: its version, and its end.
#[derive(Debug, Drop)]
struct Visit(u64, u64);

impl Lasting for Visit {
    ghost version = { λ visit. visit.0 };

    ghost end = { λ visit. visit.1 };

    fn version(&self) -> u64 {
        self.0
    }

    fn end(&self) -> u64 {
        self.1
    }
}

/// How many values are left of one that is replaced by one that lasts longer, and of one that is
/// replaced by one that is over sooner, when both first ones would be over, and when all are.
fn count_left<K: Duplicate>(
    alloc: Global,
    longer: K,
    longer_again: K,
    sooner: K,
    sooner_again: K,
) -> Result<(usize, usize), AllocError> {
    let mut map = LastingMap::new(alloc);
    map.put(longer, Visit(1, 1_000))?;
    map.put(sooner, Visit(1, 1_000))?;
    map.mark();
    map.put(longer_again, Visit(2, 3_000))?;
    map.put(sooner_again, Visit(2, 500))?;
    map.settle();
    map.purge(1_000);
    let some = map.len();
    map.purge(3_000);
    let rest = map.len();
    Ok((some, rest))
}

#[test]
fn newer_values_last_to_their_own_end(rt: HostRuntime) -> Result<(), Fail> {
    let left = count_left(rt.alloc(), Name(7), Name(7), Name(8), Name(8))?;
    assert_eq!(rt; left, (1, 0));
    Ok(())
}

#[test]
fn places_come_by_their_seconds(rt: HostRuntime) -> Result<(), Fail> {
    let mut ends = EndQueue::new(rt.alloc());
    for (second, number) in [(30, 1), (10, 2), (20, 3)] {
        ends.reserve()?;
        ends.add(second, Name(number));
    }
    assert!(rt; ends.take_ended(30).is_none());
    ends.settle();
    assert_eq!(rt; ends.len(), 3);
    assert!(rt; ends.take_ended(9).is_none());
    let mut taken = Vec::new(rt.alloc());
    for second in [10, 29, 29, 30] {
        if let Some((end, name)) = ends.take_ended(second) {
            taken.push((end, name.0))?;
        }
    }
    assert_eq!(rt; taken.as_slice(), [(10, 2), (20, 3), (30, 1)].as_slice());
    Ok(())
}
