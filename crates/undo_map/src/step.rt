//! What a write changed, so that it can be taken back.
ghost use Rattle.std.specs.Prelude.{◌≡◌, OnOk, OnErr, []};
ghost use Rattle.std.specs.BTreeMap.{IsOrdered, insert_entry, is_at};
ghost use Rattle.std.specs.Map.{set_value};
ghost use Rattle.undo_map.specs.Marked.{with_all};
ghost use Rattle.undo_map.specs.Steps.{before_all, taken_back};

use crate::duplicate::Duplicate;
use std::alloc::{AllocError, Global};
use std::collections::BTreeMap;

/// A key that was written, and the value that stood under it.
#[derive(Drop)]
pub(crate) struct Step<K, V> {
    pub(crate) key: K,
    pub(crate) was: Option<V>,
}

/// Writes a value under a key, and adds the step to those that take back.
pub(crate) fn write_step<K: Duplicate, V: Drop>(
    alloc: Global,
    entries: &mut BTreeMap<K, V>,
    steps: &mut Vec<Step<K, V>>,
    key: K,
    value: V,
) -> Result<(), AllocError>
    requires { IsOrdered K.cmp entries.old }
    ensures written { OnOk result
        (entries.new.entries ≡ insert_entry K.cmp entries.old.entries key value) }
    ensures before { before_all K.cmp steps.new.items entries.new.entries
        ≡ before_all K.cmp steps.old.items entries.old.entries }
    ensures err { OnErr result (entries.new.entries ≡ entries.old.entries) }
    ensures steps_err { OnErr result (steps.new.items ≡ steps.old.items) }
    ensures ordered { IsOrdered K.cmp entries.new }
{
    let copy = key.duplicate(alloc)?;
    steps.reserve(1)?;
    let was = entries.insert(key, value)?;
    steps.push_reserved(Step { key: copy, was });
    Ok(())
}

/// Takes a step back.
pub(crate) fn take_back<K: Duplicate, V: Drop>(entries: &mut BTreeMap<K, V>, step: Step<K, V>)
    requires { IsOrdered K.cmp entries.old }
    ensures back { entries.new.entries
        ≡ taken_back K.cmp step.key step.was entries.old.entries }
    ensures ordered { IsOrdered K.cmp entries.new }
{
    let Step { key, was } = step;
    match was {
        Some(value) => put_back(entries, &key, value),
        None => {
            let _ = entries.remove(&key);
        }
    }
}

/// Puts a value back under its key; without the key nothing changes.
fn put_back<K: Duplicate, V: Drop>(entries: &mut BTreeMap<K, V>, key: &K, value: V)
    requires { IsOrdered K.cmp entries.old }
    ensures back { entries.new.entries
        ≡ set_value (is_at (K.cmp key.now)) entries.old.entries value }
    ensures ordered { IsOrdered K.cmp entries.new }
{
    match entries.get_mut(key) {
        Some(place) => *place = value,
        None => {}
    }
}

/// Takes all steps back, the last one first.
pub(crate) fn take_all_back<K: Duplicate, V: Drop>(
    entries: &mut BTreeMap<K, V>,
    steps: &mut Vec<Step<K, V>>,
)
    requires { IsOrdered K.cmp entries.old }
    ensures back { entries.new.entries ≡ before_all K.cmp steps.old.items entries.old.entries }
    ensures none { steps.new.items ≡ [] }
    ensures ordered { IsOrdered K.cmp entries.new }
{
    while let Some(step) = steps.pop() {
        take_back(entries, step);
    }
}

/// Writes pairs in turn, and adds their steps to those that take back.
pub(crate) fn write_steps<K: Duplicate, V: Drop>(
    alloc: Global,
    entries: &mut BTreeMap<K, V>,
    steps: &mut Vec<Step<K, V>>,
    pairs: Vec<(K, V)>,
) -> Result<(), AllocError>
    requires { IsOrdered K.cmp entries.old }
    ensures written { OnOk result
        (entries.new.entries ≡ with_all K.cmp entries.old.entries pairs.items) }
    ensures before { before_all K.cmp steps.new.items entries.new.entries
        ≡ before_all K.cmp steps.old.items entries.old.entries }
    ensures ordered { IsOrdered K.cmp entries.new }
{
    for (key, value) in pairs {
        write_step(alloc, entries, steps, key, value)?;
    }
    Ok(())
}

/// Writes pairs in turn, then adds their steps, which stand apart until all is written.
fn write_apart<K: Duplicate, V: Drop>(
    alloc: Global,
    entries: &mut BTreeMap<K, V>,
    steps: &mut Vec<Step<K, V>>,
    own: &mut Vec<Step<K, V>>,
    pairs: Vec<(K, V)>,
) -> Result<(), AllocError>
    requires { IsOrdered K.cmp entries.old }
    ensures written { OnOk result
        (entries.new.entries ≡ with_all K.cmp entries.old.entries pairs.items) }
    ensures before { OnErr result (before_all K.cmp own.new.items entries.new.entries
        ≡ before_all K.cmp own.old.items entries.old.entries) }
    ensures steps_ok { OnOk result (before_all K.cmp steps.new.items entries.new.entries
        ≡ before_all K.cmp steps.old.items
        (before_all K.cmp own.old.items entries.old.entries)) }
    ensures steps_err { OnErr result (steps.new.items ≡ steps.old.items) }
    ensures ordered { IsOrdered K.cmp entries.new }
{
    write_steps(alloc, entries, own, pairs)?;
    steps.append(own)?;
    Ok(())
}

/// Writes all pairs and adds their steps, or changes nothing.
pub(crate) fn write_all_steps<K: Duplicate, V: Drop>(
    alloc: Global,
    entries: &mut BTreeMap<K, V>,
    steps: &mut Vec<Step<K, V>>,
    pairs: Vec<(K, V)>,
) -> Result<(), AllocError>
    requires { IsOrdered K.cmp entries.old }
    ensures written { OnOk result
        (entries.new.entries ≡ with_all K.cmp entries.old.entries pairs.items) }
    ensures before { before_all K.cmp steps.new.items entries.new.entries
        ≡ before_all K.cmp steps.old.items entries.old.entries }
    ensures err { OnErr result (entries.new.entries ≡ entries.old.entries) }
    ensures steps_err { OnErr result (steps.new.items ≡ steps.old.items) }
    ensures ordered { IsOrdered K.cmp entries.new }
{
    let mut own = Vec::new(alloc);
    match write_apart(alloc, entries, steps, &mut own, pairs) {
        Ok(()) => Ok(()),
        Err(fault) => {
            take_all_back(entries, &mut own);
            Err(fault)
        }
    }
}
